// The known recordings as a statement about the rules.
ghost use Rattle.recordings.specs.Known.{Reproduced, known};
ghost use Rattle.std.specs.List.{AllByRecursion};

// States that the rules give every known recording; it computes nothing.
pub fn known_recordings_stand() -> u8
    ensures { AllByRecursion Reproduced known }
{
    0
}
