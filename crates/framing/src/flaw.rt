// What is wrong with a record that is bad.
#[derive(Clone, Copy)]
pub enum Flaw {
    // A kind that is neither 1 nor 2.
    Kind(u64),
    // A length that its kind does not have.
    Length(usize),
    // A time of 2^48 or more.
    LateTime,
    // A control bit above 1.
    StrayControl,
}
