// What a seat of the table knows. No value of these types is made.
use std::collections::LinkedList;

/// A lock that is held: its word, and whether for EXCL.
pub struct Hold {
    pub word: u32,
    pub excl: bool,
}

/// What a step of a hand found in a word.
pub struct Reading {
    pub hand: u8,
    pub word: u32,
    pub value: u64,
}

/// What a hand was granted.
pub struct Grant {
    pub hand: u8,
    pub word: u32,
    pub excl: bool,
}

// A seat that another took in has the number 0.
pub struct View {
    pub number: u8,
    pub right: bool,
    pub gathered: LinkedList<u8>,
    pub held: LinkedList<Hold>,
    pub read: LinkedList<Reading>,
    pub ever: LinkedList<Grant>,
}

// How many lock words and hands there are.
#[derive(Clone, Copy)]
pub struct Size {
    pub words: u32,
    pub hands: u8,
}
