/// A content as contracts see it, and what is kept beside it.
#[derive(Drop)]
pub struct Beside<S, X> {
    pub inner: S,
    pub more: X,
}

/// All that is kept beside a content, or an item of the content.
#[derive(Drop)]
pub enum FirstItem<X, I> {
    More(X),
    Inner(I),
}
