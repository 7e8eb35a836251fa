// A relation carries its strength.
#[derive(Clone, Copy)]
pub enum Relation {
    AtMost(f64),
    Equal(f64),
    AtLeast(f64),
}
