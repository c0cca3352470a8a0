//! What holds of the runs of every engine, and worked examples of filling.

ghost use Rattle.std.specs.Prelude.{◌≡◌, length};
ghost use Rattle.engines.specs.Laws.{RunsByBlocks, FillExamplesHold, fill_examples};

/// How many worked examples of filling are proved: all of the list. A run of any engine is accepted where it is a number of
/// blocks, up to as many as there are lanes, and each of them is replaced; any other run is refused and stays.
pub fn worked_examples() -> usize
    ensures count { result ≡ length fill_examples }
    ensures fill { FillExamplesHold }
    ensures runs { RunsByBlocks }
{
    10
}
