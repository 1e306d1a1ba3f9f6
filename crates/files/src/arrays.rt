// A file as it is held: in arrays, of which the first so many elements count.
use opcodes::{Instr, Object};

// The objects of a file: the first `count` of the list; the others are blank.
#[derive(Clone, Copy)]
pub struct Objects {
    pub count: usize,
    pub list: [Object; 400],
}

// The sets: how many, where each ends among the members, and all members one set after the other.
#[derive(Clone, Copy)]
pub struct Sets {
    pub count: usize,
    pub ends: [u16; 400],
    pub members: [u16; 16384],
}

// The instructions: the first `count` of the list; the others are END.
#[derive(Clone, Copy)]
pub struct Code {
    pub count: usize,
    pub list: [Instr; 2000],
}

// A file as it is held.
#[derive(Clone, Copy)]
pub struct Loaded {
    pub objects: Objects,
    pub sets: Sets,
    pub code: Code,
}
