//! Candidates by their sources.

ghost use Rattle.std.specs.Prelude.{◌≡◌, not};
ghost use Rattle.std.specs.List.{filter, list_all, list_any};
ghost use Rattle.candidate_assembly.specs.Answers.Sources.{is_of};

use candidate_eval::eval::response::Candidate;
use candidate_eval::eval::source::{BuiltinImplSource, CandidateSource, ParamEnvSource};
use ir_trees::decl::contents::AliasBoundKind;

/// Kinds of sources, by which it is said which candidates win.
#[derive(Clone, Copy)]
pub enum SourceKind {
    /// The rule of the language that wins over all others.
    Trivial,
    /// An impl.
    Impl,
    /// A bound that an object states of itself.
    Object,
    /// A bound of an alias.
    AliasBound,
    /// A bound of the goal's alias itself.
    SelfBound,
    /// A clause of the environment.
    WhereBound,
    /// A clause of the environment that isn't global.
    NonGlobal,
    /// A global clause of the environment.
    Global,
}

impl SourceKind {
    /// Whether the source is of that kind.
    pub(crate) fn has(self, source: CandidateSource) -> bool
        ensures { result ≡ is_of self source }
    {
        match self {
            SourceKind::Trivial => matches!(
                source,
                CandidateSource::BuiltinImpl(BuiltinImplSource::Trivial)
            ),
            SourceKind::Impl => matches!(source, CandidateSource::Impl(_)),
            SourceKind::Object => matches!(
                source,
                CandidateSource::BuiltinImpl(BuiltinImplSource::Object(_))
            ),
            SourceKind::AliasBound => matches!(source, CandidateSource::AliasBound(_)),
            SourceKind::SelfBound => matches!(
                source,
                CandidateSource::AliasBound(AliasBoundKind::SelfBounds)
            ),
            SourceKind::WhereBound => matches!(source, CandidateSource::ParamEnv(_)),
            SourceKind::NonGlobal => {
                matches!(source, CandidateSource::ParamEnv(ParamEnvSource::NonGlobal))
            }
            SourceKind::Global => {
                matches!(source, CandidateSource::ParamEnv(ParamEnvSource::Global))
            }
        }
    }
}

/// Whether one of the candidates is of that kind.
pub(crate) fn has_any(candidates: &[Candidate], kind: SourceKind) -> bool
    ensures { result ≡ list_any (λ x. is_of kind x.source) candidates.now }
{
    candidates
        .iter()
        .any(|candidate| kind.has(candidate.source))
}

/// Whether all candidates are of that kind.
pub(crate) fn has_only(candidates: &[Candidate], kind: SourceKind) -> bool
    ensures { result ≡ list_all (λ x. is_of kind x.source) candidates.now }
{
    candidates
        .iter()
        .all(|candidate| kind.has(candidate.source))
}

/// Keeps the candidates of that kind alone.
pub(crate) fn keep(candidates: &mut Vec<Candidate>, kind: SourceKind)
    ensures { candidates.new.items ≡ filter (λ x. is_of kind x.source) candidates.old.items }
{
    candidates.retain(|candidate| kind.has(candidate.source));
}

/// Removes the candidates of that kind.
pub(crate) fn remove(candidates: &mut Vec<Candidate>, kind: SourceKind)
    ensures { candidates.new.items ≡ filter (λ x. not (is_of kind x.source)) candidates.old.items }
{
    candidates.retain(|candidate| !kind.has(candidate.source));
}
