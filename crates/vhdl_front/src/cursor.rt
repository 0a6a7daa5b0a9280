// Taking tokens, with what each does beside standing in its place.
ghost use Rattle.std.specs.Prelude.{◌≡◌, ◌∷◌, ◌<◌, ◌+◌, ◌-◌, ◌*◌, ◌^◌, min, Ok, IfOk, OnOk, IfErr, IsTrue, true, false, nat_lt, length, option_copied};
ghost use Rattle.vhdl_token.specs.declared.token.PlacedToken.{PlacedToken};
ghost use Rattle.grammar_theory.specs.Tokens.{is_of, is_at};
ghost use Rattle.grammar_theory.specs.Marks.{Mark, State, starts, chooses, again, opens, operator, declares, enters, counts, spells, fits, step};
ghost use Rattle.grammar_theory.specs.Outcome.{Gives, Fails, start, passed, take_from, take_at, take_marked, refusal};
ghost use Rattle.grammar_theory.specs.declared.form.Form.TheVariants.{Identifier};
ghost use Rattle.vhdl_front.specs.Cursor.{name_of, rest_of, at_first};

use crate::counts::Counts;
use grammar_theory::{BITS, Breach, CHAIN, Form, Reason, Refusal, Stop};
use std::alloc::Global;
use std::marker::Model;
use vhdl_token::{PlacedToken, Sign, Token};
use vlsi_base::Text;

/// A place in a text: the tokens that are left, and what was counted over those before. Contracts see both.
#[derive(Drop)]
pub struct Cursor<'a> {
    rest: &'a [PlacedToken],
    counts: Counts,
    alloc: Global,
}

impl<'a> Model for Cursor<'a> {
    ghost use Rattle.grammar_theory.specs.Outcome.{At};
    ghost use Rattle.vhdl_front.specs.Cursor.{at_of};

    ghost Value = { At };

    ghost view = { λ a. at_of a.counts a.rest.now };
}

impl<'a> Cursor<'a> {
    /// At the first of these tokens. Takes no memory.
    pub fn new(alloc: Global, tokens: &'a [PlacedToken]) -> Self
        ensures { result ≡ start tokens.now }
    {
        Cursor {
            rest: tokens,
            counts: Counts::new(alloc),
            alloc,
        }
    }

    /// Where what is read takes its memory.
    pub fn alloc(&self) -> Global {
        self.alloc
    }

    /// The tokens that are left.
    pub fn rest(&self) -> &'a [PlacedToken]
        ensures { result.now ≡ self.now.rest }
    {
        self.rest
    }

    /// Passes over the next token, of which there must be one.
    pub fn skip(&mut self)
        requires { 0 < length self.old.rest }
        ensures { self.new ≡ record { state = self.old.state; rest = rest_of self.old.rest } }
    {
        self.rest = &self.rest[1..];
    }

    /// Before the first operator of an expression.
    pub fn restart(&mut self)
        ensures { self.new ≡ at_first self.old }
    {
        self.counts.operators = 0;
    }

    /// Whether the next token is of this form.
    pub fn at(&self, form: Form) -> bool
        ensures { result ≡ is_at form self.now.rest }
    {
        match self.rest.first() {
            Some(next) => form.fits(next),
            None => false,
        }
    }

    /// The refusal of the next token.
    pub fn refuse(&self, reason: Reason) -> Stop
        ensures { result ≡ Stop.Refused (refusal reason self.now.rest) }
    {
        Stop::Refused(Refusal {
            reason,
            left: self.rest.len(),
        })
    }

    /// The next token, which has to be of this form, and those behind it.
    fn next(&self, form: Form) -> Result<(&'a PlacedToken, &'a [PlacedToken]), Stop>
        ensures ok { IfOk result (λ p. (self.now.rest ≡ p.0.now ∷ p.1.now) × (is_of form p.0.now ≡ true)) }
        ensures err { IfErr result (λ e. (m : PlacedToken → Mark) (s : State) → Fails e (take_from form m s self.now.rest)) }
    {
        match self.rest.split_first() {
            Some((next, rest)) if form.fits(next) => Ok((next, rest)),
            _ => Err(self.refuse(Reason::Syntax)),
        }
    }

    /// The first token of an alternative is refused where this is one more than a choice may have.
    fn admit(&self) -> Result<(), Stop>
        ensures ok { OnOk result (nat_lt CHAIN self.now.state.alternatives ≡ false) }
        ensures err { IfErr result (λ e. (nat_lt CHAIN self.now.state.alternatives ≡ true)
            × (e ≡ Stop.Refused (refusal (Reason.Breach Breach.Chain) self.now.rest))) }
    {
        if self.counts.alternatives > CHAIN {
            return Err(self.refuse(Reason::Breach(Breach::Chain)));
        }
        Ok(())
    }

    /// Takes the next token where it is of this form, and else refuses it. Takes no memory.
    #[tactic(auto, unfolding(grammar_theory::specs::Marks::step))]
    pub fn take(&mut self, form: Form) -> Result<&'a PlacedToken, Stop>
        ensures { Gives (λ t. t.now) result self.new (take_at form self.old) }
    {
        let (next, rest) = self.next(form)?;
        self.admit()?;
        self.rest = rest;
        Ok(next)
    }

    /// An operator of an expression.
    #[tactic(auto, unfolding(grammar_theory::specs::Marks::step))]
    pub fn take_operator(&mut self, form: Form) -> Result<&'a PlacedToken, Stop>
        ensures { Gives (λ t. t.now) result self.new (take_marked form (λ _. operator) self.old) }
    {
        let (next, rest) = self.next(form)?;
        if self.counts.operators >= CHAIN {
            return Err(self.refuse(Reason::Breach(Breach::Chain)));
        }
        self.admit()?;
        self.counts.operators += 1;
        self.rest = rest;
        Ok(next)
    }

    /// A token behind which an expression begins.
    #[tactic(auto, unfolding(grammar_theory::specs::Marks::step))]
    pub fn take_starting(&mut self, form: Form) -> Result<&'a PlacedToken, Stop>
        ensures { Gives (λ t. t.now) result self.new (take_marked form (λ _. starts) self.old) }
    {
        let (next, rest) = self.next(form)?;
        self.admit()?;
        self.counts.operators = 0;
        self.rest = rest;
        Ok(next)
    }

    /// A token behind which a choice begins, with its first alternative.
    #[tactic(auto, unfolding(grammar_theory::specs::Marks::step))]
    pub fn take_choosing(&mut self, form: Form) -> Result<&'a PlacedToken, Stop>
        ensures { Gives (λ t. t.now) result self.new (take_marked form (λ _. chooses) self.old) }
    {
        let (next, rest) = self.next(form)?;
        self.admit()?;
        self.counts.operators = 0;
        self.counts.alternatives = 1;
        self.rest = rest;
        Ok(next)
    }

    /// A token behind which a further alternative of a choice begins.
    #[tactic(auto, unfolding(grammar_theory::specs::Marks::step))]
    pub fn take_again(&mut self, form: Form) -> Result<&'a PlacedToken, Stop>
        ensures { Gives (λ t. t.now) result self.new (take_marked form (λ _. again) self.old) }
    {
        let (next, rest) = self.next(form)?;
        self.admit()?;
        self.counts.operators = 0;
        self.counts.alternatives += 1;
        self.rest = rest;
        Ok(next)
    }

    /// A token that has to be right as it is spelled, which `is_right` says of it.
    #[tactic(auto, unfolding(grammar_theory::specs::Marks::step))]
    pub fn take_fitting(&mut self, form: Form, is_right: bool) -> Result<&'a PlacedToken, Stop>
        ensures { Gives (λ t. t.now) result self.new (take_marked form (λ _. fits is_right) self.old) }
    {
        let (next, rest) = self.next(form)?;
        if !is_right {
            return Err(self.refuse(Reason::Breach(Breach::Spelling)));
        }
        self.admit()?;
        self.rest = rest;
        Ok(next)
    }

    /// An opening parenthesis, where so many more may be open.
    #[tactic(auto, unfolding(grammar_theory::specs::Marks::step))]
    pub fn open(&mut self, room: u32) -> Result<&'a PlacedToken, Stop>
        ensures taken { Gives (λ t. t.now) result self.new (take_marked (Form.Sign Sign.LeftParen) (λ _. opens room) self.old) }
        ensures fits { IfOk result (λ _. 0 < room) }
    {
        let (next, rest) = self.next(Form::Sign(Sign::LeftParen))?;
        if room == 0 {
            return Err(self.refuse(Reason::Breach(Breach::Depth)));
        }
        self.admit()?;
        self.rest = rest;
        Ok(next)
    }

    /// The last token of the type of a declaration of so many names, each of so many bits.
    #[tactic(auto, unfolding(grammar_theory::specs::Marks::step))]
    pub fn take_counting(
        &mut self,
        form: Form,
        count: usize,
        width: u64,
    ) -> Result<&'a PlacedToken, Stop>
        ensures { Gives (λ t. t.now) result self.new (take_marked form (λ _. counts (count * width)) self.old) }
    {
        let (next, rest) = self.next(form)?;
        let total = total_bits(self.counts.bits, count, width);
        if total > BITS {
            return Err(self.refuse(Reason::Breach(Breach::Bits(total))));
        }
        self.admit()?;
        self.counts.bits = total;
        self.rest = rest;
        Ok(next)
    }

    /// The name that has to stand here.
    #[tactic(auto, unfolding(grammar_theory::specs::Marks::step))]
    pub fn take_spelled(&mut self, wanted: &[u8]) -> Result<&'a PlacedToken, Stop>
        ensures { Gives (λ t. t.now) result self.new (take_marked Identifier (λ t. spells wanted.now (name_of t)) self.old) }
    {
        let (next, rest) = self.next(Form::Identifier)?;
        if wanted != name_bytes(next) {
            return Err(self.refuse(Reason::Breach(Breach::Spelling)));
        }
        self.admit()?;
        self.rest = rest;
        Ok(next)
    }

    /// Takes the next token, a name that is declared by a declaration that begins on this line.
    #[tactic(auto, unfolding(grammar_theory::specs::Marks::step))]
    fn declare_next(
        &mut self,
        next: &'a PlacedToken,
        rest: &'a [PlacedToken],
        line: u32,
    ) -> Result<&'a PlacedToken, Stop>
        requires { self.old.rest ≡ next.now ∷ rest.now }
        ensures { Gives (λ t. t.now) result self.new (passed next.now rest.now (step (declares line (name_of next.now)) (self.old.state))) }
    {
        let name = name_bytes(next);
        if !self.counts.declare(self.alloc, name)? {
            let name = Text::from_bytes(self.alloc, name)?;
            return Err(self.refuse(Reason::Breach(Breach::Twice(line, name))));
        }
        self.admit()?;
        self.rest = rest;
        Ok(next)
    }

    /// Takes the next token, a name that is declared in a list of its own, by a declaration that begins on this line.
    #[tactic(auto, unfolding(grammar_theory::specs::Marks::step))]
    fn enter_next(
        &mut self,
        next: &'a PlacedToken,
        rest: &'a [PlacedToken],
        list: &[u8],
        line: u32,
    ) -> Result<&'a PlacedToken, Stop>
        requires { self.old.rest ≡ next.now ∷ rest.now }
        ensures { Gives (λ t. t.now) result self.new (passed next.now rest.now (step (enters list.now line (name_of next.now)) (self.old.state))) }
    {
        let name = name_bytes(next);
        let mut key = list.to_vec(self.alloc)?;
        key.extend_from_slice(name)?;
        if !self.counts.declare(self.alloc, &key)? {
            let name = Text::from_bytes(self.alloc, name)?;
            return Err(self.refuse(Reason::Breach(Breach::Twice(line, name))));
        }
        self.admit()?;
        self.rest = rest;
        Ok(next)
    }

    /// A name that is declared, by a declaration that begins on this line.
    pub fn declare(&mut self, line: u32) -> Result<&'a PlacedToken, Stop>
        ensures { Gives (λ t. t.now) result self.new (take_marked Identifier (λ t. declares line (name_of t)) self.old) }
    {
        let (next, rest) = self.next(Form::Identifier)?;
        self.declare_next(next, rest, line)
    }

    /// A name with which its declaration begins.
    pub fn declare_first(&mut self) -> Result<&'a PlacedToken, Stop>
        ensures { Gives (λ t. t.now) result self.new (take_marked Identifier (λ t. declares t.line (name_of t)) self.old) }
    {
        let (next, rest) = self.next(Form::Identifier)?;
        self.declare_next(next, rest, next.line)
    }
}

impl<'a> Cursor<'a> {
    /// A name that is declared in a list of its own, by a declaration that begins on this line. The names of that list are kept
    /// with `list` in front, which no identifier has.
    pub fn enter(&mut self, list: &[u8], line: u32) -> Result<&'a PlacedToken, Stop>
        ensures { Gives (λ t. t.now) result self.new (take_marked Identifier (λ t. enters list.now line (name_of t)) self.old) }
    {
        let (next, rest) = self.next(Form::Identifier)?;
        self.enter_next(next, rest, list, line)
    }

    /// A name with which its declaration begins, declared in a list of its own.
    pub fn enter_first(&mut self, list: &[u8]) -> Result<&'a PlacedToken, Stop>
        ensures { Gives (λ t. t.now) result self.new (take_marked Identifier (λ t. enters list.now t.line (name_of t)) self.old) }
    {
        let (next, rest) = self.next(Form::Identifier)?;
        self.enter_next(next, rest, list, next.line)
    }
}

/// How many bits there are with those of so many names more, each of so many bits; at most what a `u64` can tell.
fn total_bits(bits: u64, count: usize, width: u64) -> u64
    ensures { result ≡ min (bits + count * width) (2 ^ 64 - 1) }
{
    bits.saturating_add((count as u64).saturating_mul(width))
}

/// The name that an identifier is; of another token none.
pub fn name_bytes(token: &PlacedToken) -> &[u8]
    ensures { result.now ≡ name_of token.now }
{
    match &token.token {
        Token::Identifier(name) => name.as_bytes(),
        _ => &[],
    }
}
