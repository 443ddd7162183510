//! The laws of histories of shards.

ghost use Rattle.eleos_kv.specs.Runs.{IsOneMap};

/// The commands of any legal history of the shards, in the order of their stamps, are a run of one
/// map, where what each shard's pass read is what its own calls wrote.
pub fn commands_are_one_map()
    ensures { IsOneMap }
{}
