// A script as a value: up to two stations and the turns that are made of them.
use choice::opening::Opening;
use runs::turns::Turn;

// The two stations that a script can speak of.
#[derive(Clone, Copy, PartialEq, Eq, Debug)]
pub enum Name {
    A,
    B,
}

// What a script says of one station: how it is opened, if it is, and the turns made of it.
#[derive(Drop)]
pub struct Side {
    pub opening: Option<Opening>,
    pub turns: Vec<Turn>,
}

#[derive(Drop)]
pub struct Script {
    pub a: Side,
    pub b: Side,
    // Whose turn each one is, in the script's order. The turns lie apart, since those of a station are played as one slice.
    pub order: Vec<Name>,
}
