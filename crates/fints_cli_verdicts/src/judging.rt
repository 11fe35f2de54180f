//! Several messages, each judged by itself.
ghost use Rattle.std.specs.Prelude.{◌≡◌, ◌≤◌, ◌∷◌, ◌++◌, ℕ, List, [], map, OnOk, IfOk, IfErr};
ghost use Rattle.fints_params.specs.Captures.{IsReadOf};
ghost use Rattle.fints_rules.specs.Breaks.{IsJudged};
ghost use Rattle.fints_cli_verdicts.specs.Pieces.{pieces};
ghost use Rattle.fints_cli_verdicts.specs.Verdicts.{AreJudged, AreVerdictsBy, AreVerdictsOf, IsAMessage, IsFaultAmong, IsPieceFault, IsPiecesRefusal, IsVerdictsRefusal};

use crate::pieces::{Piece, pieces_of};
use crate::writing::verdicts_reply;
use fints_cli_texts::{Fault, JudgeObserver, Reply};
use fints_params::{ParamFault, Params};
use fints_rules::{Broken, OrderTable, Permissions, judge_message};
use fints_rules_messages::{JudgeFault, read_message_with};
use fints_syntax::Memory;
use std::alloc::Global;

// The rules that a message breaks.
fn judge_piece<O: JudgeObserver>(
    alloc: Global,
    permissions: &Permissions<'_>,
    piece: &Piece<'_>,
    observer: &mut O,
) -> Result<Vec<Broken>, JudgeFault>
    ensures judged { IfOk result (λ broken. IsJudged permissions.now piece.now.bytes broken.items) }
    ensures message { IfOk result (λ _. IsAMessage piece.now) }
    ensures refused { IfErr result (λ f. IsPieceFault piece.now f) }
{
    match read_message_with(alloc, piece.bytes(), observer) {
        Ok(message) => {
            let broken = judge_message(alloc, permissions, &message)?;
            observer.judged(permissions, &message, broken.as_slice());
            Ok(broken)
        }
        Err(fault) => match fault {
            JudgeFault::NotAMessage { offset } => Err(JudgeFault::NotAMessage {
                offset: piece.start() + offset,
            }),
            _ => Err(JudgeFault::Memory),
        },
    }
}

fn push(all: &mut Vec<Vec<Broken>>, broken: Vec<Broken>) -> Result<(), Memory>
    ensures { OnOk result (all.new.items ≡ all.old.items ++ broken ∷ []) }
{
    all.push(broken)?;
    Ok(())
}

// Those that each breaks.
fn judge_each<O: JudgeObserver>(
    alloc: Global,
    permissions: &Permissions<'_>,
    pieces: &[Piece<'_>],
    observer: &mut O,
) -> Result<Vec<Vec<Broken>>, JudgeFault>
    ensures judged { IfOk result (λ all.
        AreJudged permissions.now pieces.now (map (λ broken. broken.items) all.items)) }
    ensures refused { IfErr result (λ f. IsFaultAmong pieces.now f) }
{
    let mut all = Vec::new(alloc);
    for piece in pieces {
        push(&mut all, judge_piece(alloc, permissions, piece, observer)?)?;
    }
    Ok(all)
}

// The verdicts on messages, by what a bank permits.
#[tactic(auto, using(crate::proofs::VerdictLemmas::pieces_refused))]
fn judge_all_by<O: JudgeObserver>(
    alloc: Global,
    permissions: &Permissions<'_>,
    messages: &[u8],
    sizes: &[usize],
    observer: &mut O,
) -> Result<Reply, Fault>
    ensures judged { IfOk result (λ reply. AreVerdictsBy permissions.now
        (pieces sizes.now messages.now) reply.status reply.text.items) }
    ensures refused { IfErr result (λ f. IsPiecesRefusal (pieces sizes.now messages.now) f) }
{
    let pieces = pieces_of(alloc, messages, sizes)?;
    let all = judge_each(alloc, permissions, pieces.as_slice(), observer)?;
    let reply = verdicts_reply(alloc, all.as_slice())?;
    Ok(reply)
}

// The same, by good parameters and a good order table.
fn judge_all_with<O: JudgeObserver>(
    alloc: Global,
    params: &Params,
    orders: &OrderTable,
    messages: &[u8],
    sizes: &[usize],
    observer: &mut O,
) -> Result<Reply, Fault>
    ensures judged { IfOk result (λ reply. AreVerdictsBy (record { rows = params.now; orders = orders.now })
        (pieces sizes.now messages.now) reply.status reply.text.items) }
    ensures refused { IfErr result (λ f. IsPiecesRefusal (pieces sizes.now messages.now) f) }
{
    let permissions = Permissions::build(alloc, params, orders)?;
    judge_all_by(alloc, &permissions, messages, sizes, observer)
}

/// The rules that each of several messages breaks by itself, by what was read of a capture and an order table. The
/// messages come one after another, by their sizes in bytes; what is left after the last size is one message more. Of
/// the refusals that of the capture comes first, then that of the order table, and then that of the first that is no
/// message, with the offset in all of them, from 0, at which it ceases to be one.
pub fn judge_all_read<O: JudgeObserver>(
    alloc: Global,
    params: Result<Params, ParamFault>,
    orders: &[u8],
    messages: &[u8],
    sizes: &[usize],
    observer: &mut O,
) -> Result<Reply, Fault>
    ensures status { IfOk result (λ reply. reply.status ≤ 1) }
    ensures judged { IfOk result (λ reply. (capture : List ℕ) → IsReadOf capture params
        → AreVerdictsOf capture orders.now messages.now sizes.now reply.status reply.text.items) }
    ensures refused { IfErr result (λ f. (capture : List ℕ) → IsReadOf capture params
        → IsVerdictsRefusal capture orders.now messages.now sizes.now f) }
{
    let params = match params {
        Ok(params) => params,
        Err(fault) => return Err(Fault::from(fault)),
    };
    let orders = OrderTable::read(alloc, orders)?;
    judge_all_with(alloc, &params, &orders, messages, sizes, observer)
}
