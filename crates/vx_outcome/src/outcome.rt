//! Outcomes of one attempt, each in a part of the path.

ghost use Rattle.std.specs.Prelude.{◌≡◌, ◌++◌, ◌∷◌, [], IfOk, OnOk, OnErr};
ghost use Rattle.vx_space.specs.Sets.{Sets};
ghost use Rattle.vx_group.specs.Group.{path_of};
ghost use Rattle.vx_outcome.specs.Outcome.{condition_of, Divide};

use std::alloc::{AllocError, Global};
use vx_cond::Cond;
use vx_group::Group;
use vx_space::Space;
use vx_value::{ClassId, End, MethodId, Slot, Stream};

/// What one attempt comes to in a part of the path. A group in it stands as the attempt left it, before a raise, a throw,
/// a beginning or a native method is carried out.
#[derive(Drop)]
pub enum Outcome<S: Space> {
    /// The runs go on.
    Go {
        group: Group<S>,
    },
    /// An exception of the class is made and thrown. The message is the number of a text.
    Raise {
        group: Group<S>,
        class: ClassId,
        message: Option<u64>,
    },
    /// These objects are thrown. The scope is the path.
    Throw {
        group: Group<S>,
        thrown: Cond<Slot, S>,
    },
    /// The initialisation of the class begins.
    Begin {
        group: Group<S>,
        class: ClassId,
    },
    /// The native method is carried out, with its arguments still on the operand stack.
    Native {
        group: Group<S>,
        method: MethodId,
    },
    /// The text of this number is written, and the runs go on.
    Write {
        group: Group<S>,
        stream: Stream,
        text: u64,
    },
    /// The runs end.
    Ended {
        condition: S::Id,
        end: End,
    },
}

impl<S: Space> Outcome<S> {
    /// The configurations that come to it.
    pub fn condition(&self) -> S::Id
        ensures { result ≡ condition_of self.now }
    {
        match self {
            Outcome::Go { group }
            | Outcome::Raise { group, .. }
            | Outcome::Throw { group, .. }
            | Outcome::Begin { group, .. }
            | Outcome::Native { group, .. }
            | Outcome::Write { group, .. } => group.path(),
            Outcome::Ended { condition, .. } => *condition,
        }
    }
}

/// The outcomes of one attempt.
#[derive(Drop)]
pub struct Outcomes<S: Space> {
    pub items: Vec<Outcome<S>>,
}

impl<S: Space> Outcomes<S> {
    /// No outcomes.
    pub fn new(alloc: Global) -> Outcomes<S>
        ensures { result.items.items ≡ [] }
    {
        Outcomes {
            items: Vec::new(alloc),
        }
    }

    /// The outcomes of a group that goes on as a whole. They divide its path over every space.
    pub fn go(alloc: Global, group: Group<S>) -> Result<Outcomes<S>, AllocError>
        ensures one { IfOk result (λ r. r.items.items ≡ Outcome.Go group ∷ []) }
        ensures divide { IfOk result (λ r. (sets : Sets S.Id) → Divide sets (sets.test (path_of group)) r.items.items) }
    {
        let mut outcomes = Outcomes::new(alloc);
        outcomes.push(Outcome::Go { group })?;
        Ok(outcomes)
    }

    /// Appends an outcome. Want of memory leaves them as they were.
    pub fn push(&mut self, outcome: Outcome<S>) -> Result<(), AllocError>
        ensures ok { OnOk result (self.new.items.items ≡ self.old.items.items ++ outcome ∷ []) }
        ensures err { OnErr result (self.new.items.items ≡ self.old.items.items) }
    {
        self.items.push(outcome)?;
        Ok(())
    }

    /// Appends the outcomes of another part of the path. Where there were none the others are taken as they are. Want of memory leaves them as they were.
    pub fn append(&mut self, other: Outcomes<S>) -> Result<(), AllocError>
        ensures ok { OnOk result (self.new.items.items ≡ self.old.items.items ++ other.items.items) }
        ensures err { OnErr result (self.new.items.items ≡ self.old.items.items) }
    {
        if self.items.as_slice().is_empty() {
            self.items = other.items;
            return Ok(());
        }
        let mut items = other.items;
        self.items.append(&mut items)?;
        Ok(())
    }
}
