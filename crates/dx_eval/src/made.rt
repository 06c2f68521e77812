// What a run of a script makes.
use dx_instance::Instance;
use dx_model::Matches;

/// The target of a script, and the matches that it was made of.
#[derive(Drop)]
pub struct Made {
    pub instance: Instance,
    pub matches: Matches,
}
