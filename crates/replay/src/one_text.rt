// What the relation of a sheet to its replies leaves open: nothing.
ghost use Rattle.std.specs.Prelude.{◌≡◌, ℕ, List};
ghost use Rattle.replay.specs.Replays.{Replays};

// A sheet has one text of replies. So who replays it by the rules alone, asking each order for any pick that keeps its
// meaning, gets the text that `replay` gives.
pub fn a_sheet_has_one_text()
    ensures { (sheet a b : List ℕ) → Replays sheet a → Replays sheet b → a ≡ b }
{}
