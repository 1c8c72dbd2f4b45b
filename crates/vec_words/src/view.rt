// What a seat of the word table knows.
use crate::logged::{Logged, Sight};
use std::collections::LinkedList;

// No value of it is made. `keeps` says that the seat has the log, `makes` that it makes the passes,
// and `passes` that it is a pass.
pub struct View<D> {
    pub conns: u8,
    pub len: u32,
    pub keeps: bool,
    pub log: LinkedList<Logged<D>>,
    pub makes: bool,
    pub next: u32,
    pub passes: bool,
    pub owner: u8,
    pub mine: LinkedList<(u32, D)>,
    pub known: u32,
    pub sure: u32,
    pub tests: LinkedList<Sight>,
}

// The form of the vectors: the connectors, and the bits of each one's vector.
#[derive(Clone, Copy)]
pub struct Shape {
    pub conns: u8,
    pub len: u32,
}
