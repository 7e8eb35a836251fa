// Which symbol or row a step takes: what a choice answers, and the order of ratios.

// The kinds that a look along a row asks for.
#[derive(Clone, Copy)]
pub enum Want {
    External,
    Pivotable,
    NonDummy,
    Any,
}

// The best so far, if there is one.
#[derive(Clone, Copy)]
pub struct Best {
    pub at: usize,
    pub ratio: f64,
}
