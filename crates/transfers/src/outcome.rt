use registers::end::End;
use std::ops::ControlFlow;

// Whether a transfer goes on after a turn, as it then stands, or has ended, and stood so.
pub type Outcome<T> = ControlFlow<(End, T), T>;
