// The length of a body: so many bytes, or a count and as many records of so many bytes.

#[derive(Clone, Copy, PartialEq, Eq, Debug)]
pub enum BodySize {
    Fixed(usize),
    Counted(usize),
}
