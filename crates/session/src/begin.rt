//! A new log.

ghost use Rattle.std.specs.Prelude.{◌≡◌, ◌*◌, IfErr, IfOk, IfSome, Some, length, min};
ghost use Rattle.ublock.specs.Cipher.{block_length};
ghost use Rattle.ublock.specs.Variants.{numbered};
ghost use Rattle.beatlog.specs.Calls.{view};
ghost use Rattle.beatlog.specs.Faults.{log_answer};
ghost use Rattle.pages.specs.Calls.{size};
ghost use Rattle.session.specs.Session.{mode_of_name, new_log, new_number, new_page};

use beatlog::fault::LogFault;
use beatlog::log::Log;
use cipher::engine::Engine;
use keyed::bundle::Bundle;
use keyed::engine::Keyed;
use keyed::key_row::KeyRow;
use modes::mode::Mode;
use modes::standard::StandardMode;
use protocol::command::{ModeName, NewLog};

/// The work of N: an engine is filled, and a log begun on the page.
#[tactic(auto, using(crate::proofs::NewLogs::begins))]
pub(crate) fn begin<B: Bundle<R> + Copy, R: KeyRow>(
    new: &NewLog,
    page: &mut [u8],
) -> Result<Log<Keyed<B, R>, StandardMode>, LogFault>
    requires size { IfSome (numbered new.now.variant) (λ v. size v ≡ block_length B.layout) }
    requires page { length page.old ≡ min new.now.blocks 2049 * block_length B.layout }
    ensures number { (log_answer result).number ≡ new_number new.now }
    ensures log { IfOk result (λ l. Some (view ⟦<Keyed<B, R> as Engine>⟧ ⟦<StandardMode as Mode>⟧ l) ≡ new_log (numbered new.now.variant) new.now) }
    ensures page { IfOk result (λ _. page.new ≡ new_page (numbered new.now.variant) new.now) }
    ensures page_stays { IfErr result (λ _. page.new ≡ page.old) }
{
    let engine = Keyed::fill(new.variant, new.key.as_slice())?;
    Ok(Log::begin(engine, standard(new.mode), new.start.as_slice(), page)?)
}

// The mode of a name.
fn standard(name: ModeName) -> StandardMode
    ensures { result ≡ mode_of_name name }
{
    match name {
        ModeName::Ecb => StandardMode::Ecb,
        ModeName::Cbc => StandardMode::Cbc,
    }
}
