// A stack of ids, in fixed memory.
#![tactic(auto, using(crate::proofs::Stacked::stacks))]

ghost use Rattle.std.specs.Prelude.{◌≤◌};

#[derive(Clone, Copy, Debug)]
pub(crate) struct Stack {
    // Not an `ArrayVec`, since the record of ids is `Copy` and that is not; nor a `Vec`, since there is no heap.
    ids: [u8; 255],
    len: usize,
    ghost within: { len ≤ 255 },
}

impl Stack {
    ghost use Rattle.std.specs.Prelude.{◌≡◌, ◌<◌, [], ◌∷◌, length, IfNone, IfSome};
    ghost use Rattle.ids.specs.Calls.{no_stack};
    ghost use Rattle.ids.specs.Stack.{stack};

    pub(crate) fn new() -> Stack
        ensures { stack result ≡ [] }
    {
        Stack {
            ids: [0; 255],
            len: 0,
        }
    }

    pub(crate) fn len(&self) -> usize
        ensures { result ≡ length (stack self.now) }
    {
        self.len
    }

    pub(crate) fn is_empty(&self) -> bool
        ensures { result ≡ no_stack (stack self.now) }
    {
        self.len == 0
    }

    pub(crate) fn push(&mut self, id: u8)
        requires { length (stack self.old) < 255 }
        ensures { stack self.new ≡ id ∷ stack self.old }
    {
        self.ids[self.len] = id;
        self.len += 1;
    }

    pub(crate) fn pop(&mut self) -> Option<u8>
        ensures top { IfSome result (λ id. stack self.old ≡ id ∷ stack self.new) }
        ensures none { IfNone result ((stack self.old ≡ []) × (stack self.new ≡ [])) }
    {
        self.len = self.len.checked_sub(1)?;
        Some(self.ids[self.len])
    }
}
