use std::collections::LinkedList;

/// The log and the numbers of one of two passes, before they were joined. No value of it is made.
pub struct Half<I> {
    pub seen: LinkedList<I>,
    pub numbers: LinkedList<u64>,
}

/// What a pass knows. No value of it is made.
pub struct View<V, I> {
    pub has_ticket: bool,
    pub ticket: u64,
    pub has_turn: bool,
    /// The log as far as the pass has seen it.
    pub seen: LinkedList<I>,
    /// The greatest front that it was told.
    pub told: u64,
    /// The turns that it and the passes joined into it took.
    pub turns: u64,
    pub number: u64,
    /// How many passes were made, where the number is 0.
    pub made: u64,
    /// Its own number and those of the passes joined into it.
    pub numbers: LinkedList<u64>,
    /// The two of which it was just joined.
    pub halves: LinkedList<Half<I>>,
    /// The value that the turnstile was made with, but for a pass that was joined into another.
    pub first: LinkedList<V>,
}
