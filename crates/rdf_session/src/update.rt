//! Updates: what the operations of a request make of the dataset, as a net.
ghost use Rattle.std.specs.Prelude.{◌≡◌, MatchResult};
ghost use Rattle.std.specs.Option.{option_copied};
ghost use Rattle.sparql_syntax.specs.Update.{IsUpdate};
ghost use Rattle.rdf_session.specs.Inside.Staging.{StagesSteps, TellsSyntaxFault, apply_refusal, syntax_refusal};

use crate::fault::KeeperFault;
use rdf_dataset::{Dataset, Net};
use rdf_terms::{Iri, Vocabulary};
use sparql_eval::{ApplyFault, net_of_request};
use sparql_syntax::{SyntaxFault, SyntaxFaultKind, read_update_with};
use sparql_trees::Request;
use std::alloc::Global;

/// The refusal that a fault of syntax is.
pub(crate) fn syntax_refusal(fault: SyntaxFault) -> KeeperFault
    ensures { result ≡ syntax_refusal fault fault.kind }
{
    match fault.kind {
        SyntaxFaultKind::NoMemory(refused) => KeeperFault::NoMemory(refused),
        SyntaxFaultKind::NotUtf8
        | SyntaxFaultKind::Token
        | SyntaxFaultKind::NotInProfile
        | SyntaxFaultKind::TooDeep
        | SyntaxFaultKind::Syntax
        | SyntaxFaultKind::UnknownPrefix
        | SyntaxFaultKind::Relative
        | SyntaxFaultKind::BlankInDelete
        | SyntaxFaultKind::VariableInData
        | SyntaxFaultKind::LiteralSubject
        | SyntaxFaultKind::BlankReused => KeeperFault::Syntax(fault),
    }
}

fn apply_refusal(fault: ApplyFault) -> KeeperFault
    ensures { result ≡ apply_refusal fault }
{
    match fault {
        ApplyFault::NoMemory(refused) => KeeperFault::NoMemory(refused),
        ApplyFault::MissingGraph | ApplyFault::GraphExists | ApplyFault::BlankNumbers => {
            KeeperFault::Apply(fault)
        }
    }
}

/// The request of a text, its references against the base.
pub(crate) fn read_request(
    alloc: Global,
    vocabulary: &Vocabulary,
    text: &[u8],
    base: Option<&Iri>,
) -> Result<Request, KeeperFault>
    ensures { MatchResult result
        (λ request. IsUpdate (option_copied base.entry) text.now request)
        (λ fault. TellsSyntaxFault (option_copied base.entry) text.now fault) }
{
    match read_update_with(alloc, vocabulary, text, base) {
        Ok(request) => Ok(request),
        Err(fault) => Err(syntax_refusal(fault)),
    }
}

/// The net from the dataset to what the operations of a request make of it.
pub(crate) fn stage_request(
    alloc: Global,
    vocabulary: &Vocabulary,
    dataset: &Dataset,
    request: &Request,
) -> Result<Net, KeeperFault>
    ensures { StagesSteps dataset.now request.now.operations result }
{
    match net_of_request(alloc, vocabulary, request, dataset) {
        Ok(net) => Ok(net),
        Err(fault) => Err(apply_refusal(fault)),
    }
}
