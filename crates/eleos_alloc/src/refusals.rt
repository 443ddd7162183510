// Why a call on blocks is refused.
ghost use Rattle.std.specs.Prelude.{◌≡◌, [], IfOk, Some, option_map};
ghost use Rattle.std.specs.Result.{result_err};
ghost use Rattle.eleos_base.specs.Plain.{block_refusal};
ghost use Rattle.eleos_plot.specs.Refs.{reply_bytes, reply_of};
ghost use Rattle.eleos_base.specs.Answers.{block_refusal_reply};

use eleos_base::{BlockRefused, Live};
use eleos_plot::ReplyRef;

/// The refusal as a reply.
pub(crate) fn reply_to<'a>(refused: BlockRefused) -> ReplyRef<'a>
    ensures reply { reply_of result ≡ block_refusal_reply refused }
    ensures bytes { reply_bytes result ≡ [] }
{
    match refused {
        BlockRefused::NotABlock => ReplyRef::NotABlock,
        BlockRefused::NotYours { owner } => ReplyRef::NotYours { owner },
    }
}

/// The block that was found, where the caller may free and share it.
pub(crate) fn judge(found: Option<Live>, who: u32) -> Result<Live, BlockRefused>
    ensures found { IfOk result (λ block. found ≡ Some block) }
    ensures refused { option_map block_refusal_reply (result_err result) ≡ block_refusal who found }
{
    match found {
        None => Err(BlockRefused::NotABlock),
        Some(block) if block.owner == who => Ok(block),
        Some(block) => Err(BlockRefused::NotYours { owner: block.owner }),
    }
}
