// A loose run of cells, outside the tables.
use layout::cells::ROW_ROOM;

// The first `size` of the keys and the values, by ascending key.
#[derive(Drop)]
pub struct Run {
    pub keys: [u16; ROW_ROOM],
    pub vals: [f64; ROW_ROOM],
    pub size: usize,
}

impl Run {
    pub fn new() -> Run {
        Run {
            keys: [0; ROW_ROOM],
            vals: [0.0; ROW_ROOM],
            size: 0,
        }
    }
}
