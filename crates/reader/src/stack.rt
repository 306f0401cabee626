// What is open in a message: itself, and at most sixteen structs and arrays in it.
ghost use Rattle.std.specs.Prelude.{◌≡◌, ◌<◌, ◌≤◌, List, [], ◌∷◌, length, MatchOption, ◌==◌};
ghost use Rattle.reader.specs.declared.frame.Frame.{Frame as SomeFrame};
ghost use Rattle.reader.specs.Frames.{stack_of};

use crate::frame::Frame;
use std::marker::Model;

const DEEPEST: usize = 17;

// An array with its length, since no memory is asked for.
#[derive(Drop)]
pub(crate) struct Stack {
    frames: [Frame; DEEPEST],
    depth: usize,
}

// Clauses see the frames, the innermost first.
impl Model for Stack {
    ghost Value = { List SomeFrame };

    ghost view = { λ stack. stack_of stack.frames stack.depth };

    ghost invariant = { λ stack. stack.depth ≤ 17 };
}

impl Stack {
    pub(crate) fn new() -> Stack
        ensures { result ≡ [] }
    {
        Stack {
            frames: [Frame::EMPTY; DEEPEST],
            depth: 0,
        }
    }

    pub(crate) fn is_full(&self) -> bool
        ensures full { result ≡ (length self.now == 17) }
        ensures within { length self.now ≤ 17 }
    {
        self.depth == DEEPEST
    }

    pub(crate) fn push(&mut self, frame: Frame)
        requires { length self.old < 17 }
        ensures { self.new ≡ frame ∷ self.old }
    {
        self.frames[self.depth] = frame;
        self.depth += 1;
    }

    pub(crate) fn pop(&mut self) -> Option<Frame>
        ensures top { MatchOption result ((self.old ≡ []) × (self.new ≡ [])) (λ frame. self.old ≡ frame ∷ self.new) }
        ensures room { length self.new < 17 }
    {
        if self.depth == 0 {
            return None;
        }
        self.depth -= 1;
        Some(self.frames[self.depth])
    }
}
