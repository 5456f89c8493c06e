use plans::fault::PlanFault;
use plans::plan::Plan;
use plans::stage::{Movement, Stage};
use std::alloc::Global;

// The morning plan of junction 112: main road, side road and pedestrians in a cycle of 90 seconds.
pub fn plan_of_junction_112(heap: Global) -> Result<Plan, PlanFault> {
    let stages = [
        (Movement::MainRoad, 45),
        (Movement::SideRoad, 20),
        (Movement::Pedestrians, 7),
    ]
    .map(|(movement, green)| Stage {
        movement,
        green,
        intergreen: 6,
    });
    Plan::new(112, 3, 90, 24, Vec::from_slice(heap, &stages)?)
}

// A side road that is green too long: byte 13 is the green of the second stage.
pub fn lengthen_side_road_green(record: &mut [u8]) {
    if let Some(green) = record.get_mut(13) {
        *green = green.saturating_add(20);
    }
}
