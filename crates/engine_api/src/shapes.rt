ghost use Rattle.std.specs.Prelude.{◌≡◌};
ghost use Rattle.engine_api.specs.Shapes.{shape_of};

use cf_types::{Caps, Kind, StrForm};

/// What of a structure's form its content goes by: its kind, the capacity that the policy states,
/// how many connections it admits, and how many bits a connector's vector has.
#[derive(Clone, Copy, PartialEq, Eq)]
pub struct Shape {
    pub kind: Kind,
    pub caps: Caps,
    pub conns: u8,
    pub vector: u32,
}

impl Shape {
    /// That of a form.
    pub fn of(form: &StrForm) -> Shape
        ensures { result ≡ shape_of form.now }
    {
        Shape {
            kind: form.kind,
            caps: form.caps,
            conns: form.conns,
            vector: form.vector,
        }
    }
}
