// What a search is asked.
ghost use Rattle.dx_holds.specs.Searching.{AtomsFitInstance};

use dx_base::Text;
use dx_instance::Instance;
use dx_model::Atom;

/// What is asked: whether atoms, with texts for their variables, can be facts of an instance.
#[derive(Clone, Copy)]
pub(crate) struct Question<'a> {
    pub atoms: &'a [Atom],
    pub tuple: &'a [Text],
    pub target: &'a Instance,
    ghost fit: { AtomsFitInstance target.now atoms.now tuple.now },
}
