use registers::buffer::Buffer;

// What a turn works on: the drives, and the buffer between them and the host.
#[derive(Drop)]
pub struct DataPath<S> {
    pub string: S,
    pub buffer: Buffer,
}
