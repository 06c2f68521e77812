// The law of the key chase. The definitions alone carry it: no body computes anything.
ghost use Rattle.dx_keys.specs.Laws.{ChasedIsReceived};

/// What the chase makes of an instance receives it, by the map; so an instance that has a chase has no clash.
pub fn chased_is_received()
    ensures { ChasedIsReceived }
{}
