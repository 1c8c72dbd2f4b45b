/// The links of one structure to the four facilities.
#[derive(Drop)]
pub struct Links<L> {
    pub one: L,
    pub two: L,
    pub three: L,
    pub four: L,
}
