use cache_dir::Holder;
use cf_types::{Adjunct, Body, Name16};

/// An entry of the directory. It is changed where it has a castout class (1 to 16); `stg` is its
/// storage class (1 to 8).
#[derive(Drop)]
pub struct CacheItem {
    pub name: Name16,
    pub body: Option<Body>,
    pub adj: Option<Adjunct>,
    pub class: Option<u32>,
    pub holder: Option<Holder>,
    pub stg: u32,
}
