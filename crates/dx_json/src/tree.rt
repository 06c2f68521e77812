// A document as a tree whose texts are lent.
ghost use Rattle.std.specs.Prelude.{◌≡◌, option_map};
ghost use Rattle.serde_json.specs.Find.{as_object};
ghost use Rattle.dx_json.specs.View.{members_view, view};

use serde_json::Number;

/// A value. The members of an object have distinct names, which ascend.
#[derive(Drop)]
pub enum Json<'a> {
    Null,
    Bool(bool),
    Number(Number),
    String(&'a str),
    Array(Vec<Json<'a>>),
    Object(Vec<(&'a str, Json<'a>)>),
}

impl<'a> Json<'a> {
    /// The members, if it is an object.
    pub fn as_object(&self) -> Option<&[(&'a str, Json<'a>)]>
        ensures { option_map (λ m. members_view m.now) result ≡ as_object (view self.now) }
    {
        match self {
            Json::Object(members) => Some(members.as_slice()),
            _ => None,
        }
    }
}
