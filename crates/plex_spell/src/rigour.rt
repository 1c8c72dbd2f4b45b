/// How words are judged.
#[derive(Clone, Copy, Debug, PartialEq, Eq)]
pub enum Rigour {
    /// By their forms alone: no greatest length and no range counts.
    Form,
    /// By their lengths and ranges too.
    Limits,
    /// By what is declared before them too.
    Names,
}
