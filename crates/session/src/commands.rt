//! The commands on a log: its own calls, and how they are answered.

ghost use Rattle.std.specs.Prelude.{◌≡◌, Some, length};
ghost use Rattle.beatlog.specs.Calls.{view};
ghost use Rattle.beatlog.specs.Faults.{log_answer};
ghost use Rattle.session.specs.Session.{on_log};
ghost use Rattle.protocol.specs.declared.command.LogCommand.TheVariants.{Read, Show};

use beatlog::fault::LogFault;
use beatlog::log::Log;
use cipher::engine::Engine;
use modes::mode::Mode;
use protocol::command::LogCommand;
use protocol::reply::Reply;

/// Applies a command to a log and its page. A work buffer is lent, as long as the page.
pub(crate) fn apply<E: Engine + Copy, M: Mode>(
    log: &mut Log<E, M>,
    page: &mut [u8],
    work: &mut [u8],
    command: LogCommand,
) -> Result<Reply, LogFault>
    requires work { length work.old ≡ length page.old }
    ensures answer { log_answer result ≡ (on_log (view E.Engine M.Mode log.old) page.old command).answer }
    ensures log { Some (view E.Engine M.Mode log.new) ≡ (on_log (view E.Engine M.Mode log.old) page.old command).log }
    ensures page { page.new ≡ (on_log (view E.Engine M.Mode log.old) page.old command).page }
{
    let count = match command {
        LogCommand::Append { reading } => log.append(page, reading.as_slice())?,
        LogCommand::Amend { index, reading } => {
            log.amend(page, index as usize, reading.as_slice(), work)?
        }
        LogCommand::Cut { count } => log.cut(page, count as usize)?,
        LogCommand::Read { index } => return read(log, page, index as usize),
        LogCommand::Show { index } => return show(log, page, index as usize),
    };
    Ok(Reply::number(count as u64))
}

// A reading.
fn read<E: Engine + Copy, M: Mode>(
    log: &Log<E, M>,
    page: &[u8],
    index: usize,
) -> Result<Reply, LogFault>
    ensures { log_answer result ≡ (on_log (view E.Engine M.Mode log.now) page.now (Read index)).answer }
{
    let mut place = [0; 32];
    let place = &mut place[..log.block_len()];
    log.read(page, index, place)?;
    Ok(Reply::block(place).unwrap())
}

// A sealed block, where a reading of this index stands: the log refuses as for a reading, which is then dropped.
fn show<E: Engine + Copy, M: Mode>(
    log: &Log<E, M>,
    page: &[u8],
    index: usize,
) -> Result<Reply, LogFault>
    ensures { log_answer result ≡ (on_log (view E.Engine M.Mode log.now) page.now (Show index)).answer }
{
    let mut place = [0; 32];
    let b = log.block_len();
    log.read(page, index, &mut place[..b])?;
    Ok(Reply::block(&page[index * b..index * b + b]).unwrap())
}
