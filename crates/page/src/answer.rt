// What an accepted call with a page answers, and how many ops it took back.
#[derive(Clone, Copy, Debug, PartialEq, Eq)]
pub struct Paged<T> {
    pub answer: T,
    pub taken: usize,
}
