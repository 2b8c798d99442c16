//! The bindings that are in force.
ghost use Rattle.std.specs.Prelude.{◌≡◌, ◌∷◌, ◌++◌, [], ℕ, if◌then◌else◌, true, IfOk, List, OnOk};
ghost use Rattle.std.specs.Prelude.{drop, filter, unwrap_or};
ghost use Rattle.std.specs.BTreeMap.{is_at};
ghost use Rattle.std.specs.Str.{bytes_eq};
ghost use Rattle.xs_result_lines.specs.Bindings.{Binding, declared, is_new, order_of_prefixes};
ghost use Rattle.xs_result_lines.specs.Bindings.{outermost, uri_in};
ghost use Rattle.xs_result_lines.specs.steps.InForce.{is_in_force};
ghost use Rattle.xs_result_lines.specs.steps.Open.{binding, bindings_of};

use crate::tag_bindings::TagBindings;
use crate::text_key::TextKey;
use std::alloc::{AllocError, Global};
use std::collections::BTreeMap;
use std::marker::Model;
use xs_text::{TextBuf, XML_URI, is_same};

/// A declaration: a prefix, empty for the default namespace, and its URI.
#[derive(Drop)]
pub(crate) struct Declared {
    pub(crate) prefix: TextBuf,
    pub(crate) uri: TextBuf,
}

/// A declaration that is in force, and the URI that its prefix was bound to before.
#[derive(Drop)]
struct Undo {
    prefix: TextBuf,
    uri: TextBuf,
    before: Option<TextBuf>,
}

/// The declarations that are in force. Contracts see them as a list, the nearest first.
#[derive(Drop)]
pub(crate) struct Scope {
    /// The URI of each prefix.
    current: BTreeMap<TextKey, TextBuf>,
    /// What was declared, the nearest last.
    log: Vec<Undo>,
    /// The prefix of the last element, as a key: the next one mostly has the same.
    recent: TextKey,
    /// The URI of that prefix in the table, if it has one.
    bound: Option<TextBuf>,
}

impl Model for Scope {
    ghost use Rattle.std.specs.Prelude.{◌≡◌, List, reverse};
    ghost use Rattle.xs_result_lines.specs.Bindings.{Binding, uri_in};
    ghost use Rattle.xs_result_lines.specs.steps.Open.{IsCurrent, KnowBefore, logged};

    ghost Value = { List Binding };

    ghost view = { λ s. logged (reverse s.log.items) };

    ghost invariant = { λ s. (IsCurrent s.current.entries (reverse s.log.items)
        × KnowBefore (reverse s.log.items)) × (s.bound ≡ uri_in s.current.entries s.recent) };
}

impl Scope {
    /// Nothing is declared; `xml` is bound.
    pub(crate) fn outermost(alloc: Global) -> Result<Scope, AllocError>
        ensures { IfOk result (λ scope. scope ≡ []) }
    {
        let mut current = BTreeMap::new(alloc);
        let xml = TextBuf::of(alloc, "xml")?;
        let _ = current.insert(TextKey::of(&xml)?, TextBuf::of(alloc, XML_URI)?)?;
        let recent = TextKey::of_str(alloc, "")?;
        let bound = bound_to(&current, &recent)?;
        Ok(Scope {
            current,
            log: Vec::new(alloc),
            recent,
            bound,
        })
    }

    /// The bindings of a start tag that are new here, in their order.
    #[tactic(auto, unfolding(crate::specs::Bindings::declared))]
    pub(crate) fn declared(
        &self,
        alloc: Global,
        tag: &TagBindings,
    ) -> Result<Vec<Declared>, AllocError>
        ensures { IfOk result (λ all.
            bindings_of all.items ≡ declared (self.now ++ outermost) tag.now) }
    {
        let mut all = Vec::new(alloc);
        for (prefix, uri) in tag.entries() {
            self.push_new(&mut all, prefix, uri)?;
        }
        Ok(all)
    }

    /// Adds a binding, if it is new here.
    fn push_new(
        &self,
        all: &mut Vec<Declared>,
        prefix: &TextKey,
        uri: &TextBuf,
    ) -> Result<(), AllocError>
        ensures { OnOk result ((more : List Binding) → bindings_of all.new.items
            ++ filter (is_new (self.now ++ outermost)) more
            ≡ bindings_of all.old.items
            ++ filter (is_new (self.now ++ outermost)) ((prefix.now, uri.now) ∷ more)) }
    {
        if self.is_new(prefix, uri.as_str()) {
            all.push(Declared {
                prefix: prefix.text().copy()?,
                uri: uri.copy()?,
            })?;
        }
        Ok(())
    }

    /// Adds the binding of a namespace node, if it is new here.
    pub(crate) fn push_space(
        &self,
        all: &mut Vec<Declared>,
        prefix: &TextBuf,
        uri: &TextBuf,
    ) -> Result<(), AllocError>
        ensures { OnOk result ((more : List Binding) → bindings_of all.new.items
            ++ filter (is_new (self.now ++ outermost)) more
            ≡ bindings_of all.old.items
            ++ filter (is_new (self.now ++ outermost)) ((prefix.now, uri.now) ∷ more)) }
    {
        if self.has_space(prefix, uri)? {
            return Ok(());
        }
        all.push(Declared {
            prefix: prefix.copy()?,
            uri: uri.copy()?,
        })?;
        Ok(())
    }

    /// Whether a prefix is bound to another URI here, or to none.
    #[tactic(auto, unfolding(crate::specs::Bindings::uri_in))]
    fn is_new(&self, prefix: &TextKey, uri: &str) -> bool
        ensures { result ≡ is_new (self.now ++ outermost) (prefix.now, uri.now) }
    {
        match self.current.get(prefix) {
            Some(other) => other.as_str() != uri,
            None => !uri.is_empty(),
        }
    }

    /// Whether a prefix is bound to a URI here; to none, where the URI is empty.
    pub(crate) fn is_in_force(&self, prefix: &str, uri: &str) -> Result<bool, AllocError>
        ensures { IfOk result (λ holds. holds
            ≡ is_in_force (self.now ++ outermost) prefix.now uri.now) }
    {
        if self.is_bare(prefix) {
            return Ok(uri.is_empty());
        }
        if self.binds_recent(prefix, uri) {
            return Ok(true);
        }
        let key = TextKey::of_str(*self.log.allocator(), prefix)?;
        Ok(!self.is_new(&key, uri))
    }

    /// The same of a namespace node.
    pub(crate) fn has_space(&self, prefix: &TextBuf, uri: &TextBuf) -> Result<bool, AllocError>
        ensures { IfOk result (λ holds. holds
            ≡ is_in_force (self.now ++ outermost) prefix.now uri.now) }
    {
        if self.binds_recent(prefix.as_str(), uri.as_str()) {
            return Ok(true);
        }
        let key = TextKey::of(prefix)?;
        Ok(!self.is_new(&key, uri.as_str()))
    }

    /// Whether a prefix is the recent one, and is bound to a URI here; to none, where the URI is
    /// empty.
    fn binds_recent(&self, prefix: &str, uri: &str) -> bool
        ensures { result ≡ true
            → is_in_force (self.now ++ outermost) prefix.now uri.now ≡ true }
    {
        if !is_same(self.recent.as_str(), prefix) {
            return false;
        }
        is_bound_to(&self.bound, uri)
    }

    /// Whether nothing is declared, and a prefix is empty.
    fn is_bare(&self, prefix: &str) -> bool
        ensures none { result ≡ true → self.now ≡ [] }
        ensures empty { result ≡ true → prefix.now ≡ [] }
    {
        if !self.log.is_empty() {
            return false;
        }
        prefix.is_empty()
    }

    /// Whether a prefix is the recent one.
    pub(crate) fn has_recent(&self, prefix: &str) -> bool {
        is_same(self.recent.as_str(), prefix)
    }

    /// The same, with a prefix as the recent one.
    pub(crate) fn with_recent(self, prefix: &str) -> Result<Scope, AllocError>
        ensures { IfOk result (λ scope. scope ≡ self) }
    {
        if is_same(self.recent.as_str(), prefix) {
            return Ok(self);
        }
        let Scope {
            current,
            log,
            recent,
            bound,
        } = self;
        let _last = recent;
        let _uri = bound;
        let recent = TextKey::of_str(*log.allocator(), prefix)?;
        let bound = bound_to(&current, &recent)?;
        Ok(Scope {
            current,
            log,
            recent,
            bound,
        })
    }

    /// These declarations are in force too, the first of them nearest.
    pub(crate) fn enter(self, declared: Vec<Declared>) -> Result<Scope, AllocError>
        ensures { IfOk result (λ scope. scope ≡ bindings_of declared.items ++ self) }
    {
        let mut scope = self;
        let mut left = declared;
        while let Some(last) = left.pop() {
            scope = scope.declare(last)?;
        }
        Ok(scope)
    }

    /// One declaration more.
    fn declare(self, declared: Declared) -> Result<Scope, AllocError>
        ensures { IfOk result (λ scope. scope ≡ binding declared ∷ self) }
    {
        let Scope {
            mut current,
            mut log,
            recent,
            bound,
        } = self;
        let Declared { prefix, uri } = declared;
        let is_recent = is_same(recent.as_str(), prefix.as_str());
        let before = current.insert(TextKey::of(&prefix)?, uri.copy()?)?;
        let bound = bound_now(&current, &recent, bound, is_recent)?;
        log.push(Undo {
            prefix,
            uri,
            before,
        })?;
        Ok(Scope {
            current,
            log,
            recent,
            bound,
        })
    }

    /// So many declarations, the nearest, are no longer in force.
    pub(crate) fn leave(self, count: usize) -> Result<Scope, AllocError>
        ensures { IfOk result (λ scope. scope ≡ drop count self) }
    {
        let mut scope = self;
        let mut left = count;
        while left > 0 {
            scope = scope.leave_one()?;
            left -= 1;
        }
        Ok(scope)
    }

    /// The nearest declaration is no longer in force.
    fn leave_one(self) -> Result<Scope, AllocError>
        ensures { IfOk result (λ scope. scope ≡ drop 1 self) }
    {
        let Scope {
            current,
            mut log,
            recent,
            bound,
        } = self;
        match log.pop() {
            Some(last) => {
                let is_recent = is_same(recent.as_str(), last.prefix.as_str());
                let current = undone(current, last)?;
                let bound = bound_now(&current, &recent, bound, is_recent)?;
                Ok(Scope {
                    current,
                    log,
                    recent,
                    bound,
                })
            }
            None => Ok(Scope {
                current,
                log,
                recent,
                bound,
            }),
        }
    }
}

/// The URI that a table has for a key.
#[tactic(auto, unfolding(crate::specs::Bindings::uri_in))]
fn bound_to(
    current: &BTreeMap<TextKey, TextBuf>,
    prefix: &TextKey,
) -> Result<Option<TextBuf>, AllocError>
    ensures { IfOk result (λ uri. uri ≡ uri_in current.now.entries prefix.now) }
{
    match current.get(prefix) {
        Some(uri) => Ok(Some(uri.copy()?)),
        None => Ok(None),
    }
}

/// The URI that a table has for the recent prefix, after another prefix was bound, or that one:
/// then it has to be looked up again.
fn bound_now(
    current: &BTreeMap<TextKey, TextBuf>,
    recent: &TextKey,
    bound: Option<TextBuf>,
    is_recent: bool,
) -> Result<Option<TextBuf>, AllocError>
    ensures { IfOk result (λ uri. uri
        ≡ (if is_recent then uri_in current.now.entries recent.now else bound)) }
{
    if is_recent {
        return bound_to(current, recent);
    }
    Ok(bound)
}

/// Whether a prefix to which a table gives this URI, or none, is bound to a URI; to none, where
/// that is empty.
fn is_bound_to(bound: &Option<TextBuf>, uri: &str) -> bool
    ensures { result ≡ bytes_eq (unwrap_or bound.now []) uri.now }
{
    match bound {
        Some(other) => is_same(other.as_str(), uri),
        None => uri.is_empty(),
    }
}

/// A table as it was before a declaration.
#[tactic(auto, unfolding(crate::specs::Bindings::uri_in))]
fn undone(
    current: BTreeMap<TextKey, TextBuf>,
    last: Undo,
) -> Result<BTreeMap<TextKey, TextBuf>, AllocError>
    ensures { IfOk result (λ table. (some : List ℕ) → uri_in table.entries some
        ≡ (if is_at (order_of_prefixes last.prefix) some then last.before
        else uri_in current.entries some)) }
{
    let mut table = current;
    let Undo {
        prefix,
        uri,
        before,
    } = last;
    let _uri = uri;
    let key = TextKey::of(&prefix)?;
    match before {
        Some(uri) => {
            let _ = table.insert(key, uri)?;
        }
        None => {
            let _ = table.remove(&key);
        }
    }
    Ok(table)
}
