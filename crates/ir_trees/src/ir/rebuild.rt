//! Nodes like others, over other children.

ghost use Rattle.std.specs.Prelude.{◌≡◌, true, length, IfOk, map};
ghost use Rattle.ir_trees.specs.Syntax.Kinds.{numbers, numbers as child_numbers, sorts, arg_child, ty_head, ty_children, const_head, const_children, pred_head, pred_children, clause_head, clause_children, sig_children};
ghost use Rattle.ir_trees.specs.Syntax.Nodes.{head_of, children_of, is_rebuilt, clause_child};

use crate::ir::kinds::{
    AliasTerm, AliasTy, Args, Binder, Clause, ClauseKind, ClosureArgs, ClosureSig, Const,
    ConstKind, ExistentialPredicate, ExistentialProjection, ExistentialTraitRef, FnSig, GenericArg,
    Pattern, Preds, ProjectionPredicate, Region, Sig, TraitPredicate, TraitRef, Ty, TyKind, Vars,
};
use crate::ir::node::Node;
use crate::ir::numbered::Numbered;
use std::alloc::{AllocError, Global};

impl TyKind {
    /// The kind over these children, which are of the same sorts.
    pub fn with_children(self, children: &[u32]) -> TyKind
        requires { length children.now ≡ length (ty_children self) }
        ensures head { ty_head result ≡ ty_head self }
        ensures numbers { numbers (ty_children result) ≡ children.now }
        ensures sorts { sorts (ty_children result) ≡ sorts (ty_children self) }
    {
        match self {
            TyKind::Adt(id, _) => TyKind::Adt(id, Args(children[0])),
            TyKind::Array(_, _) => TyKind::Array(Ty(children[0]), Const(children[1])),
            TyKind::Slice(_) => TyKind::Slice(Ty(children[0])),
            TyKind::Pat(_, Pattern::NotNull) => TyKind::Pat(Ty(children[0]), Pattern::NotNull),
            TyKind::Pat(_, Pattern::Range(_, _)) => TyKind::Pat(
                Ty(children[0]),
                Pattern::Range(Const(children[1]), Const(children[2])),
            ),
            TyKind::RawPtr(_, mutability) => TyKind::RawPtr(Ty(children[0]), mutability),
            TyKind::Ref(_, _, mutability) => {
                TyKind::Ref(Region(children[0]), Ty(children[1]), mutability)
            }
            TyKind::FnDef(id, _) => TyKind::FnDef(id, Args(children[0])),
            TyKind::FnPtr(sig) => TyKind::FnPtr(Binder {
                vars: Vars(children[0]),
                value: FnSig {
                    inputs: Args(children[1]),
                    output: Ty(children[2]),
                    ..sig.value
                },
            }),
            TyKind::UnsafeBinder(_) => TyKind::UnsafeBinder(Binder {
                vars: Vars(children[0]),
                value: Ty(children[1]),
            }),
            TyKind::Dynamic(_, _) => TyKind::Dynamic(Preds(children[0]), Region(children[1])),
            TyKind::Closure(id, args) => TyKind::Closure(
                id,
                ClosureArgs {
                    parent: Args(children[0]),
                    kind: args.kind,
                    sig: Sig(children[1]),
                    upvars: Ty(children[2]),
                },
            ),
            TyKind::Tuple(_) => TyKind::Tuple(Args(children[0])),
            TyKind::Alias(alias) => TyKind::Alias(AliasTy {
                args: Args(children[0]),
                ..alias
            }),
            TyKind::Bool
            | TyKind::Char
            | TyKind::Int(_)
            | TyKind::Uint(_)
            | TyKind::Float(_)
            | TyKind::Str
            | TyKind::Never
            | TyKind::Foreign(_)
            | TyKind::Param(_)
            | TyKind::Placeholder(_)
            | TyKind::Bound(_)
            | TyKind::Infer(_)
            | TyKind::Error => self,
        }
    }
}

impl ConstKind {
    /// The kind over these children, which are of the same sorts.
    pub fn with_children(self, children: &[u32]) -> ConstKind
        requires { length children.now ≡ length (const_children self) }
        ensures head { const_head result ≡ const_head self }
        ensures numbers { numbers (const_children result) ≡ children.now }
        ensures sorts { sorts (const_children result) ≡ sorts (const_children self) }
    {
        match self {
            ConstKind::Unevaluated(id, _) => ConstKind::Unevaluated(id, Args(children[0])),
            ConstKind::Value(_)
            | ConstKind::Param(_)
            | ConstKind::Placeholder(_)
            | ConstKind::Bound(_)
            | ConstKind::Infer(_)
            | ConstKind::Error => self,
        }
    }
}

impl Binder<ExistentialPredicate> {
    /// The bound over these children, which are of the same sorts.
    pub fn with_children(self, children: &[u32]) -> Binder<ExistentialPredicate>
        requires { length children.now ≡ length (pred_children self) }
        ensures head { pred_head result ≡ pred_head self }
        ensures numbers { numbers (pred_children result) ≡ children.now }
        ensures sorts { sorts (pred_children result) ≡ sorts (pred_children self) }
    {
        let value = match self.value {
            ExistentialPredicate::Trait(trait_ref) => {
                ExistentialPredicate::Trait(ExistentialTraitRef {
                    args: Args(children[1]),
                    ..trait_ref
                })
            }
            ExistentialPredicate::Projection(projection) => {
                ExistentialPredicate::Projection(ExistentialProjection {
                    args: Args(children[1]),
                    term: Ty(children[2]),
                    ..projection
                })
            }
            ExistentialPredicate::AutoTrait(id) => ExistentialPredicate::AutoTrait(id),
        };
        Binder {
            vars: Vars(children[0]),
            value,
        }
    }
}

impl Binder<ClauseKind> {
    /// The clause over these children, which are of the same sorts.
    pub fn with_children(self, children: &[u32]) -> Binder<ClauseKind>
        requires { length children.now ≡ length (clause_children self) }
        ensures head { clause_head result ≡ clause_head self }
        ensures numbers { numbers (clause_children result) ≡ children.now }
        ensures sorts { sorts (clause_children result) ≡ sorts (clause_children self) }
    {
        let value = match self.value {
            ClauseKind::Trait(predicate) => ClauseKind::Trait(TraitPredicate {
                trait_ref: TraitRef {
                    def_id: predicate.trait_ref.def_id,
                    args: Args(children[1]),
                },
                polarity: predicate.polarity,
            }),
            ClauseKind::Projection(predicate) => ClauseKind::Projection(ProjectionPredicate {
                projection_term: AliasTerm {
                    def_id: predicate.projection_term.def_id,
                    args: Args(children[1]),
                },
                term: Ty(children[2]),
            }),
            ClauseKind::TypeOutlives(_, _) => {
                ClauseKind::TypeOutlives(Ty(children[1]), Region(children[2]))
            }
            ClauseKind::RegionOutlives(_, _) => {
                ClauseKind::RegionOutlives(Region(children[1]), Region(children[2]))
            }
            ClauseKind::AliasRelate(_, _) => {
                ClauseKind::AliasRelate(Ty(children[1]), Ty(children[2]))
            }
            ClauseKind::ConstEquate(_, _) => {
                ClauseKind::ConstEquate(Const(children[1]), Const(children[2]))
            }
        };
        Binder {
            vars: Vars(children[0]),
            value,
        }
    }
}

impl Binder<ClosureSig> {
    /// The signature over these children: its variables, its inputs and its output.
    pub fn with_children(self, children: &[u32]) -> Binder<ClosureSig>
        requires { length children.now ≡ length (sig_children self) }
        ensures { numbers (sig_children result) ≡ children.now }
    {
        Binder {
            vars: Vars(children[0]),
            value: ClosureSig {
                inputs: Ty(children[1]),
                output: Ty(children[2]),
            },
        }
    }
}

/// The arguments of these numbers, of the kinds of the old ones.
pub fn renumbered(
    alloc: Global,
    list: &[GenericArg],
    numbers: &[u32],
) -> Result<Vec<GenericArg>, AllocError>
    requires { length numbers.now ≡ length list.now }
    ensures numbers { IfOk result (λ v. child_numbers (map arg_child v.items) ≡ numbers.now) }
    ensures sorts { IfOk result (λ v. sorts (map arg_child v.items) ≡ sorts (map arg_child list.now)) }
{
    let mut out = Vec::new(alloc);
    for i in 0..list.len() {
        out.push(list[i].with_number(numbers[i]))?;
    }
    Ok(out)
}

/// The clauses of these numbers.
pub(crate) fn clauses_of(alloc: Global, numbers: &[u32]) -> Result<Vec<Clause>, AllocError>
    ensures { IfOk result (λ v. child_numbers (map clause_child v.items) ≡ numbers.now) }
{
    let mut out = Vec::new(alloc);
    for i in 0..numbers.len() {
        out.push(Clause(numbers[i]))?;
    }
    Ok(out)
}

impl Node {
    /// An equal node, whose list is another.
    pub fn copy(&self, alloc: Global) -> Result<Node, AllocError>
        ensures head { IfOk result (λ d. head_of d ≡ head_of self.now) }
        ensures children { IfOk result (λ d. children_of d ≡ children_of self.now) }
    {
        match self {
            Node::Ty(kind) => Ok(Node::Ty(*kind)),
            Node::Const(kind) => Ok(Node::Const(*kind)),
            Node::Region(kind) => Ok(Node::Region(*kind)),
            Node::Args(list) => Ok(Node::Args(list.as_slice().to_vec(alloc)?)),
            Node::Preds(list) => Ok(Node::Preds(list.as_slice().to_vec(alloc)?)),
            Node::Clauses(list) => Ok(Node::Clauses(list.as_slice().to_vec(alloc)?)),
            Node::Pred(bound) => Ok(Node::Pred(*bound)),
            Node::Clause(clause) => Ok(Node::Clause(*clause)),
            Node::Sig(sig) => Ok(Node::Sig(*sig)),
            Node::Vars(list) => Ok(Node::Vars(list.as_slice().to_vec(alloc)?)),
            Node::Var(kind) => Ok(Node::Var(*kind)),
        }
    }

    /// A node like it over these children, which are of the same sorts.
    pub fn rebuilt(&self, alloc: Global, children: &[u32]) -> Result<Node, AllocError>
        requires kind { is_rebuilt self.now ≡ true }
        requires count { length children.now ≡ length (children_of self.now) }
        ensures kind { IfOk result (λ d. is_rebuilt d ≡ true) }
        ensures head { IfOk result (λ d. head_of d ≡ head_of self.now) }
        ensures numbers { IfOk result (λ d. numbers (children_of d) ≡ children.now) }
        ensures sorts { IfOk result (λ d. sorts (children_of d) ≡ sorts (children_of self.now)) }
    {
        match self {
            Node::Ty(kind) => Ok(Node::Ty(kind.with_children(children))),
            Node::Const(kind) => Ok(Node::Const(kind.with_children(children))),
            Node::Args(list) => Ok(Node::Args(renumbered(alloc, list.as_slice(), children)?)),
            Node::Clauses(_) => Ok(Node::Clauses(clauses_of(alloc, children)?)),
            Node::Clause(clause) => Ok(Node::Clause(clause.with_children(children))),
            Node::Sig(sig) => Ok(Node::Sig(sig.with_children(children))),
            Node::Region(_) | Node::Preds(_) | Node::Pred(_) | Node::Vars(_) | Node::Var(_) => {
                unreachable!()
            }
        }
    }
}
