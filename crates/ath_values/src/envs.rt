// The store of values and environments, which only grows.

ghost use Rattle.std.specs.Prelude.{◌≡◌, ℕ, ◌+◌, ◌*◌, ◌<◌, ◌≤◌, List, [], ◌∷◌, length, slice_get, Some, IfOk, IfSome, OnErr};
ghost use Rattle.std.specs.List.{All};
ghost use Rattle.ath_trees.specs.declared.limits.TheConstants.{MOST_TERM_NODES, MOST_TERM_LEVELS, MOST_PARTS};
ghost use Rattle.ath_values.specs.Measures.{IsMeasured, IsMade, AreWithin, measured_nodes, measured_levels};
ghost use Rattle.ath_values.specs.Nodes.{KeepsValues, IsBelow, IsValueIn, IsEnvIn, with_value, with_env, nodes_at, levels_at, listed_nodes, listed_levels, depth_at};
ghost use Rattle.ath_values.specs.Stands.{IsValue, IsContent, AreValues, IsEnv, IsEntry, AreMembers, IsFound};
ghost use Rattle.ath_values.specs.Values.{EnvTree, MemberTree, Values, ValueTree, no_entries, bound_entry, group_entry, closure_value, list_value, term_value, value_of, value_size, value_depth, env_depth, above, value_in};
ghost use Rattle.ath_syntax.specs.Nodes.{Nodes};
ghost use Rattle.ath_syntax.specs.Stands.{IsPhrase};
ghost use Rattle.ath_syntax.specs.Tree.{Phrase};
ghost use Rattle.ath_sorts.specs.Signature.{Signature};
ghost use Rattle.ath_terms.specs.SortsIn.{IsSortedIn};
ghost use Rattle.ath_terms.specs.Trees.{Trees, term_at, sort_at, sent_at};

use crate::value::{EnvId, EnvNode, KeptEnv, KeptValue, Kind, Member, Value, ValueError, ValueId};
use ath_sorts::Sym;
use ath_syntax::PhraseId;
use ath_terms::{SentNode, Store};
use ath_trees::{MOST_TERM_LEVELS, MOST_TERM_NODES, SentId, TermId};
use sqlite_items::Items;
use std::alloc::{AllocError, Global};
use std::marker::Model;

/// Values and environments by their numbers. What a number stands for is kept while the store grows. An environment is a
/// node with its newest entry and its parent, so that nothing is copied where a name is bound.
#[derive(Drop)]
pub struct Envs {
    values: Vec<KeptValue>,
    envs: Vec<KeptEnv>,
}

impl Model for Envs {
    ghost use Rattle.ath_values.specs.Nodes.{Stores, AreKept};

    ghost Value = { Stores };

    ghost view = { λ s. record { values = s.values.items; envs = s.envs.items } };

    ghost invariant = { λ s. AreKept (record { values = s.values.items; envs = s.envs.items }) };
}

/// Refuses a value of too many nodes, then one of too many levels.
fn check_limits(nodes: u64, levels: u64) -> Result<(), ValueError>
    ensures { IsMeasured (λ _. Unit {0}) result nodes levels }
{
    if MOST_TERM_NODES < nodes {
        return Err(ValueError::TooLarge(nodes));
    }
    if MOST_TERM_LEVELS < levels {
        return Err(ValueError::TooDeep(levels));
    }
    Ok(())
}

impl Envs {
    /// A store with the environment without entries.
    pub fn new(alloc: Global) -> Result<Envs, AllocError>
        ensures { IfOk result (λ e. (e.values ≡ []) × (length e.envs ≡ 1)) }
    {
        let mut envs = Vec::new(alloc);
        envs.push(KeptEnv {
            node: EnvNode::Root,
            depth: 0,
        })?;
        Ok(Envs {
            values: Vec::new(alloc),
            envs,
        })
    }

    /// The environment without entries.
    pub fn root(&self) -> EnvId
        ensures inside { IsEnvIn self.now result }
        ensures stands { (p : Nodes) (s : Trees) → IsEnv p s self.now result no_entries }
    {
        let _many = self.envs.len();
        EnvId(0)
    }

    /// The node of a value.
    pub fn get(&self, v: ValueId) -> &Value
        requires { IsValueIn self.now v }
        ensures { (p : Nodes) (s : Trees) (t : ValueTree) → IsValue p s self.now v t → IsContent p s self.now result.now t }
    {
        &self.values[v.0].value
    }

    /// The nodes of a value.
    pub fn nodes(&self, v: ValueId) -> u64
        requires { IsValueIn self.now v }
        ensures same { result ≡ nodes_at self.now v }
        ensures few { result ≤ MOST_TERM_NODES }
        ensures tree { (p : Nodes) (s : Trees) (t : ValueTree) → IsValue p s self.now v t → result ≡ value_size t }
    {
        self.values[v.0].nodes
    }

    /// The levels of a value.
    pub fn levels(&self, v: ValueId) -> u64
        requires { IsValueIn self.now v }
        ensures same { result ≡ levels_at self.now v }
        ensures few { result ≤ MOST_TERM_LEVELS }
        ensures tree { (p : Nodes) (s : Trees) (t : ValueTree) → IsValue p s self.now v t → result ≡ value_depth t }
    {
        self.values[v.0].levels
    }

    fn listed_nodes(&self, items: &[ValueId]) -> u64
        requires inside { All (IsValueIn self.now) items.now }
        requires few { length items.now ≤ MOST_PARTS }
        ensures same { result ≡ listed_nodes self.now items.now }
        ensures few { result ≤ MOST_PARTS * MOST_TERM_NODES }
    {
        let mut total: u64 = 0;
        for i in 0..items.len() {
            total += self.nodes(items[i]);
        }
        total
    }

    fn listed_levels(&self, items: &[ValueId]) -> u64
        requires { All (IsValueIn self.now) items.now }
        ensures same { result ≡ listed_levels self.now items.now }
        ensures few { result ≤ MOST_TERM_LEVELS }
    {
        let mut most: u64 = 0;
        for i in 0..items.len() {
            most = most.max(self.levels(items[i]));
        }
        most
    }

    fn measured_nodes(&self, store: &Store, value: &Value) -> u64
        requires { AreWithin store.now self.now value.now }
        ensures { result ≡ measured_nodes store.now self.now value.now }
    {
        match value {
            Value::Term(t) => store.size(*t),
            Value::Sent(p) => store.sent_size(*p),
            Value::List(items) => 1 + self.listed_nodes(items.as_slice()),
            _other => 1,
        }
    }

    fn measured_levels(&self, store: &Store, value: &Value) -> u64
        requires { AreWithin store.now self.now value.now }
        ensures { result ≡ measured_levels store.now self.now value.now }
    {
        match value {
            Value::Term(t) => store.depth(*t),
            Value::Sent(p) => store.sent_depth(*p),
            Value::List(items) => 1 + self.listed_levels(items.as_slice()),
            _other => 1,
        }
    }

    fn add(&mut self, value: Value, nodes: u64, levels: u64) -> Result<ValueId, AllocError>
        requires nodes { nodes ≤ MOST_TERM_NODES }
        requires levels { levels ≤ MOST_TERM_LEVELS }
        ensures added { IfOk result (λ _. self.new ≡ with_value self.old (record { value = value; nodes = nodes; levels = levels })) }
        ensures number { IfOk result (λ v. v.0 ≡ length self.old.values) }
        ensures err { OnErr result (self.new ≡ self.old) }
    {
        let number = self.values.len();
        self.values.push(KeptValue {
            value,
            nodes,
            levels,
        })?;
        Ok(ValueId(number))
    }

    fn made(&mut self, value: Value, nodes: u64, levels: u64) -> Result<ValueId, ValueError>
        ensures made { IsMeasured (λ v. (v.0 ≡ length self.old.values) × (self.new ≡ with_value self.old (record { value = value; nodes = nodes; levels = levels }))) result nodes levels }
        ensures inside { IfOk result (IsValueIn self.new) }
        ensures kept { KeepsValues self.old self.new }
        ensures many { length self.old.values ≤ length self.new.values }
        ensures same_envs { self.new.envs ≡ self.old.envs }
        ensures unchanged { OnErr result (self.new ≡ self.old) }
    {
        check_limits(nodes, levels)?;
        let v = self.add(value, nodes, levels)?;
        Ok(v)
    }

    /// The value of a node, or why it is none: the limits are looked at before it is made.
    pub fn value(&mut self, store: &Store, value: Value) -> Result<ValueId, ValueError>
        requires { AreWithin store.now self.old value }
        ensures made { (p : Nodes) (t : ValueTree) → IsContent p store.now self.old value t → IsMade p store.now self.new result t }
        ensures inside { IfOk result (IsValueIn self.new) }
        ensures limits { IsMeasured (IsValueIn self.new) result (measured_nodes store.now self.old value) (measured_levels store.now self.old value) }
        ensures kept { KeepsValues self.old self.new }
        ensures many { length self.old.values ≤ length self.new.values }
        ensures same_envs { self.new.envs ≡ self.old.envs }
        ensures unchanged { OnErr result (self.new ≡ self.old) }
    {
        let nodes = self.measured_nodes(store, &value);
        let levels = self.measured_levels(store, &value);
        self.made(value, nodes, levels)
    }

    /// The value of a term.
    pub fn term(&mut self, store: &Store, t: TermId) -> Result<ValueId, AllocError>
        requires { t.0 < length store.now.terms }
        ensures inside { IfOk result (IsValueIn self.new) }
        ensures stands { IfOk result (λ v. (p : Nodes) → IsValue p store.now self.new v (term_value (term_at store.now.terms t.0) (sort_at store.now.sorts t.0))) }
        ensures kept { KeepsValues self.old self.new }
        ensures many { length self.old.values ≤ length self.new.values }
        ensures same_envs { self.new.envs ≡ self.old.envs }
        ensures unchanged { OnErr result (self.new ≡ self.old) }
    {
        let v = self.add(Value::Term(t), store.size(t), store.depth(t))?;
        Ok(v)
    }

    /// The value that a sentence is: an atom is the value of its term.
    pub fn sentence(&mut self, store: &Store, p: SentId) -> Result<ValueId, AllocError>
        requires { p.0 < length store.now.sents }
        ensures inside { IfOk result (IsValueIn self.new) }
        ensures stands { IfOk result (λ v. (q : Nodes) (sig : Signature) → IsSortedIn sig store.now → IsValue q store.now self.new v (value_of (sent_at store.now.sents p.0))) }
        ensures kept { KeepsValues self.old self.new }
        ensures many { length self.old.values ≤ length self.new.values }
        ensures same_envs { self.new.envs ≡ self.old.envs }
        ensures unchanged { OnErr result (self.new ≡ self.old) }
    {
        match store.sent(p) {
            SentNode::Atom(t) => {
                let v = self.term(store, *t)?;
                Ok(v)
            }
            _other => {
                let v = self.add(Value::Sent(p), store.sent_size(p), store.sent_depth(p))?;
                Ok(v)
            }
        }
    }

    /// The list of these values, or why it is none: the limits are looked at before it is made.
    pub fn list(&mut self, items: Items<ValueId>) -> Result<ValueId, ValueError>
        requires inside { All (IsValueIn self.old) items }
        requires few { length items ≤ MOST_PARTS }
        ensures made { (p : Nodes) (s : Trees) (ts : Values) → AreValues p s self.old items ts → IsMade p s self.new result (list_value ts) }
        ensures inside { IfOk result (IsValueIn self.new) }
        ensures limits { IsMeasured (IsValueIn self.new) result (1 + listed_nodes self.old items) (1 + listed_levels self.old items) }
        ensures kept { KeepsValues self.old self.new }
        ensures many { length self.old.values ≤ length self.new.values }
        ensures same_envs { self.new.envs ≡ self.old.envs }
        ensures unchanged { OnErr result (self.new ≡ self.old) }
    {
        let nodes = 1 + self.listed_nodes(items.as_slice());
        let levels = 1 + self.listed_levels(items.as_slice());
        self.made(Value::List(items), nodes, levels)
    }

    /// The closure of a procedure or a method over an environment.
    pub fn closure(
        &mut self,
        kind: Kind,
        params: Items<Sym>,
        body: PhraseId,
        env: EnvId,
    ) -> Result<ValueId, AllocError>
        ensures inside { IfOk result (IsValueIn self.new) }
        ensures stands { IfOk result (λ v. (p : Nodes) (s : Trees) (b : Phrase) (e : EnvTree) → IsPhrase p body b → IsEnv p s self.old env e → IsValue p s self.new v (closure_value kind params b e)) }
        ensures kept { KeepsValues self.old self.new }
        ensures many { length self.old.values ≤ length self.new.values }
        ensures same_envs { self.new.envs ≡ self.old.envs }
        ensures unchanged { OnErr result (self.new ≡ self.old) }
    {
        let v = self.add(Value::Closure(kind, params, body, env), 1, 1)?;
        Ok(v)
    }

    fn add_env(&mut self, node: EnvNode, parent: EnvId) -> Result<EnvId, AllocError>
        requires parent { IsEnvIn self.old parent }
        requires below { (i : ℕ) → parent.0 < i → IsBelow (length self.old.values) i node }
        ensures added { IfOk result (λ _. self.new ≡ with_env self.old (record { node = node; depth = 1 + depth_at self.old parent })) }
        ensures number { IfOk result (λ e. e.0 ≡ length self.old.envs) }
        ensures err { OnErr result (self.new ≡ self.old) }
    {
        let number = self.envs.len();
        let depth = 1 + self.depth(parent);
        self.envs.push(KeptEnv { node, depth })?;
        Ok(EnvId(number))
    }

    /// The environment with a name and its value before its entries.
    pub fn bind(&mut self, env: EnvId, name: Sym, v: ValueId) -> Result<EnvId, AllocError>
        requires env { IsEnvIn self.old env }
        requires value { IsValueIn self.old v }
        ensures inside { IfOk result (IsEnvIn self.new) }
        ensures stands { IfOk result (λ e. (p : Nodes) (s : Trees) (t : EnvTree) (u : ValueTree) → IsEnv p s self.old env t → IsValue p s self.old v u → IsEnv p s self.new e (bound_entry name u t)) }
        ensures kept { KeepsValues self.old self.new }
        ensures many { length self.old.envs ≤ length self.new.envs }
        ensures same_values { self.new.values ≡ self.old.values }
        ensures unchanged { OnErr result (self.new ≡ self.old) }
    {
        let e = self.add_env(EnvNode::Bind(name, v, env), env)?;
        Ok(e)
    }

    /// The environment with a group before its entries, each of whose members sees them all.
    pub fn bind_group(&mut self, env: EnvId, members: Items<Member>) -> Result<EnvId, AllocError>
        requires { IsEnvIn self.old env }
        ensures inside { IfOk result (IsEnvIn self.new) }
        ensures stands { IfOk result (λ e. (p : Nodes) (s : Trees) (t : EnvTree) (ms : List MemberTree) → IsEnv p s self.old env t → AreMembers p members ms → IsEnv p s self.new e (group_entry ms t)) }
        ensures kept { KeepsValues self.old self.new }
        ensures many { length self.old.envs ≤ length self.new.envs }
        ensures same_values { self.new.values ≡ self.old.values }
        ensures unchanged { OnErr result (self.new ≡ self.old) }
    {
        let e = self.add_env(EnvNode::Group(members, env), env)?;
        Ok(e)
    }

    /// How many entries an environment has, a group counted once.
    pub fn depth(&self, env: EnvId) -> u64
        requires { IsEnvIn self.now env }
        ensures same { result ≡ depth_at self.now env }
        ensures few { result ≤ env.0 }
        ensures tree { (p : Nodes) (s : Trees) (t : EnvTree) → IsEnv p s self.now env t → result ≡ env_depth t }
    {
        self.envs[env.0].depth
    }

    /// The newest entry of an environment, with its parent.
    fn entry(&self, env: EnvId) -> &EnvNode
        requires { IsEnvIn self.now env }
        ensures stands { (p : Nodes) (s : Trees) (t : EnvTree) → IsEnv p s self.now env t → IsEntry p s self.now result.now t }
        ensures below { IsBelow (length self.now.values) env.0 result.now }
    {
        &self.envs[env.0].node
    }

    fn parent(&self, env: EnvId) -> EnvId
        requires { IsEnvIn self.now env }
        ensures inside { IsEnvIn self.now result }
        ensures stands { (p : Nodes) (s : Trees) (t : EnvTree) → IsEnv p s self.now env t → IsEnv p s self.now result (above 1 t) }
    {
        match self.entry(env) {
            EnvNode::Root => env,
            EnvNode::Bind(_, _, up) => *up,
            EnvNode::Group(_, up) => *up,
        }
    }

    /// The environment so many entries up.
    pub fn ancestor(&self, env: EnvId, hops: u64) -> EnvId
        requires { IsEnvIn self.now env }
        ensures inside { IsEnvIn self.now result }
        ensures stands { (p : Nodes) (s : Trees) (t : EnvTree) → IsEnv p s self.now env t → IsEnv p s self.now result (above hops t) }
    {
        let mut at = env;
        for _hop in 0..hops {
            at = self.parent(at);
        }
        at
    }

    /// The value of a member of an environment's newest entry, none where there is no such member. That of a group is
    /// the closure over the environment itself, which begins with the group.
    pub fn at(
        &mut self,
        alloc: Global,
        env: EnvId,
        member: usize,
    ) -> Result<Option<ValueId>, AllocError>
        requires { IsEnvIn self.old env }
        ensures inside { IfOk result (λ o. IfSome o (IsValueIn self.new)) }
        ensures found { IfOk result (λ v. (p : Nodes) (s : Trees) (t : EnvTree) → IsEnv p s self.old env t → IsFound p s self.new v (value_in t member)) }
        ensures kept { KeepsValues self.old self.new }
        ensures many { length self.old.values ≤ length self.new.values }
        ensures same_envs { self.new.envs ≡ self.old.envs }
        ensures unchanged { OnErr result (self.new ≡ self.old) }
    {
        match self.entry(env) {
            EnvNode::Root => Ok(None),
            EnvNode::Bind(_, v, _) => {
                if member == 0 {
                    return Ok(Some(*v));
                }
                Ok(None)
            }
            EnvNode::Group(members, _) => {
                let Some(m) = members.get(member) else {
                    return Ok(None);
                };
                let params = Items::from_slice(alloc, m.params.as_slice())?;
                let value = Value::Closure(m.kind, params, m.body, env);
                let v = self.add(value, 1, 1)?;
                Ok(Some(v))
            }
        }
    }
}
