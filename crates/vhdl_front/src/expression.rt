// Reading expressions.
ghost use Rattle.std.specs.Prelude.{◌≡◌, ◌∷◌, [], ℕ, map, MatchResult};
ghost use Rattle.vlsi_base.specs.Tree.{view, binary, folded, operand_of};
ghost use Rattle.grammar_theory.specs.Tokens.{code};
ghost use Rattle.grammar_theory.specs.Outcome.{Gives, list_at, with_front};
ghost use Rattle.grammar_theory.specs.declared.refusal.Stop.TheVariants.{Memory};
ghost use Rattle.vhdl_front.specs.Cursor.{number_of, bit_of, digits_of, radix_of};
ghost use Rattle.vhdl_front.specs.Reading.{number_at, direction_at, slice_at, places_at, stable_at, suffix_at, named_at, bit_at, text_at, string_at, primary_at, inverse_at, factor_at, joined_at, cat_at, pair_at, chain_at, compared_at, relation_at, logical_at, enter_at, expression_at};

use crate::cursor::{Cursor, name_bytes};
use grammar_theory::{Form, Stop};
use std::alloc::Global;
use vhdl_token::{Keyword, PlacedToken, Sign, Token};
use vlsi_base::{Operator, ParsedExpr, Radix, Range, Text};

/// The number that a token is; of another token 0.
fn number_value(token: &PlacedToken) -> u32
    ensures { result ≡ number_of token.now }
{
    match &token.token {
        Token::Number(n) => *n,
        _ => 0,
    }
}

/// The bit that a token is; of another token 0.
fn bit_value(token: &PlacedToken) -> bool
    ensures { result ≡ bit_of token.now }
{
    match &token.token {
        Token::Bit(value) => *value,
        _ => false,
    }
}

/// What stands between the quotes of a text or a bit string.
fn digits_bytes(token: &PlacedToken) -> &[u8]
    ensures { result.now ≡ digits_of token.now }
{
    match &token.token {
        Token::Quoted(text) => text.as_bytes(),
        Token::BitString(_, digits) => digits.as_bytes(),
        _ => &[],
    }
}

fn radix_value(token: &PlacedToken) -> Radix
    ensures { result ≡ radix_of token.now }
{
    match &token.token {
        Token::BitString(radix, _) => *radix,
        _ => Radix::Binary,
    }
}

/// Two operands.
fn join_two(
    alloc: Global,
    operator: Operator,
    line: u32,
    left: ParsedExpr,
    right: ParsedExpr,
) -> Result<ParsedExpr, Stop>
    ensures { MatchResult result (λ parsed. view parsed ≡ binary operator line (view left) (view right)) (λ e. e ≡ Memory) }
{
    let left = Box::new(alloc, left)?;
    let right = Box::new(alloc, right)?;
    Ok(ParsedExpr::Binary(operator, line, left, right))
}

/// Operands joined by one operator, or the first alone.
fn join(
    alloc: Global,
    operator: Operator,
    first: ParsedExpr,
    others: Vec<(u32, ParsedExpr)>,
) -> Result<ParsedExpr, Stop>
    ensures { MatchResult result (λ parsed. view parsed ≡ folded operator (view first) (map operand_of others.items)) (λ e. e ≡ Memory) }
{
    if others.is_empty() {
        return Ok(first);
    }
    let first = Box::new(alloc, first)?;
    Ok(ParsedExpr::Chain(operator, first, others))
}

impl Cursor<'_> {
    /// A number.
    #[tactic(auto, unfolding(crate::specs::Reading::number_at))]
    pub fn number(&mut self) -> Result<u32, Stop>
        ensures { Gives (λ n. n) result self.new (number_at self.old) }
    {
        let token = self.take(Form::Number)?;
        Ok(number_value(token))
    }

    /// `downto`, or `to`.
    #[tactic(auto, unfolding(crate::specs::Reading::direction_at))]
    pub fn direction(&mut self) -> Result<bool, Stop>
        ensures { Gives (λ b. b) result self.new (direction_at self.old) }
    {
        if self.at(Form::Keyword(Keyword::Downto)) {
            let _word = self.take(Form::Keyword(Keyword::Downto))?;
            Ok(true)
        } else {
            let _word = self.take(Form::Keyword(Keyword::To))?;
            Ok(false)
        }
    }

    /// A range behind its first number, for the name and its line.
    #[tactic(auto, unfolding(crate::specs::Reading::slice_at, crate::specs::Reading::closing_at))]
    fn slice(&mut self, name: Text, line: u32, paren: u32, left: u32) -> Result<ParsedExpr, Stop>
        ensures { Gives view result self.new (slice_at name line paren left self.old) }
    {
        let falls = self.direction()?;
        let right = self.number()?;
        let _close = self.take(Form::Sign(Sign::RightParen))?;
        let range = Range {
            left,
            falls,
            right,
            line: paren,
        };
        Ok(ParsedExpr::Slice(name, line, range))
    }

    /// An index or a range behind its parenthesis.
    #[tactic(auto, unfolding(crate::specs::Reading::places_at, crate::specs::Reading::closing_at))]
    fn places(&mut self, name: Text, line: u32, paren: u32) -> Result<ParsedExpr, Stop>
        ensures { Gives view result self.new (places_at name line paren self.old) }
    {
        let left = self.number()?;
        if self.at(Form::Sign(Sign::RightParen)) {
            let _close = self.take(Form::Sign(Sign::RightParen))?;
            Ok(ParsedExpr::Index(name, line, left))
        } else {
            self.slice(name, line, paren, left)
        }
    }

    #[tactic(auto, unfolding(crate::specs::Reading::stable_at))]
    fn stable(&mut self, name: Text, line: u32) -> Result<ParsedExpr, Stop>
        ensures { Gives view result self.new (stable_at name line self.old) }
    {
        let _tick = self.take(Form::Sign(Sign::Tick))?;
        let _word = self.take_spelled(b"stable")?;
        Ok(ParsedExpr::Stable(name, line))
    }

    /// What stands behind a name.
    #[tactic(auto, unfolding(crate::specs::Reading::suffix_at, crate::specs::Reading::bounded_at))]
    fn suffix(&mut self, room: u32, name: Text, line: u32) -> Result<ParsedExpr, Stop>
        ensures { Gives view result self.new (suffix_at room name line self.old) }
    {
        if self.at(Form::Sign(Sign::LeftParen)) {
            let paren = self.open(room)?.line;
            self.places(name, line, paren)
        } else if self.at(Form::Sign(Sign::Tick)) {
            self.stable(name, line)
        } else {
            Ok(ParsedExpr::Name(name, line))
        }
    }

    #[tactic(auto, unfolding(crate::specs::Reading::named_at))]
    fn named(&mut self, room: u32) -> Result<ParsedExpr, Stop>
        ensures { Gives view result self.new (named_at room self.old) }
    {
        let token = self.take(Form::Identifier)?;
        let name = Text::from_bytes(self.alloc(), name_bytes(token))?;
        self.suffix(room, name, token.line)
    }

    #[tactic(auto, unfolding(crate::specs::Reading::bit_at))]
    fn bit(&mut self) -> Result<ParsedExpr, Stop>
        ensures { Gives view result self.new (bit_at self.old) }
    {
        let token = self.take(Form::Bit)?;
        Ok(ParsedExpr::Bit(bit_value(token), token.line))
    }

    #[tactic(auto, unfolding(crate::specs::Reading::text_at))]
    fn text(&mut self) -> Result<ParsedExpr, Stop>
        ensures { Gives view result self.new (text_at self.old) }
    {
        let token = self.take(Form::BitText)?;
        let digits = Text::from_bytes(self.alloc(), digits_bytes(token))?;
        Ok(ParsedExpr::Literal(Radix::Binary, digits, token.line))
    }

    #[tactic(auto, unfolding(crate::specs::Reading::string_at))]
    fn string(&mut self) -> Result<ParsedExpr, Stop>
        ensures { Gives view result self.new (string_at self.old) }
    {
        let token = self.take(Form::BitString)?;
        let digits = Text::from_bytes(self.alloc(), digits_bytes(token))?;
        Ok(ParsedExpr::Literal(radix_value(token), digits, token.line))
    }

    /// At an opening parenthesis, where so many more may be open.
    #[cycle(parser)]
    #[tactic(auto, unfolding(crate::specs::Reading::enter_at, crate::specs::Reading::closing_at))]
    fn parenthesized(&mut self, room: u32) -> Result<ParsedExpr, Stop>
        ensures { Gives view result self.new (enter_at room self.old) }
    {
        let _open = self.open(room)?;
        let inner = self.expression(room - 1)?;
        let _close = self.take(Form::Sign(Sign::RightParen))?;
        Ok(inner)
    }

    #[cycle(parser)]
    #[tactic(auto, unfolding(crate::specs::Reading::primary_at))]
    fn primary(&mut self, room: u32) -> Result<ParsedExpr, Stop>
        ensures { Gives view result self.new (primary_at room (enter_at room) self.old) }
    {
        if self.at(Form::Sign(Sign::LeftParen)) {
            self.parenthesized(room)
        } else if self.at(Form::Bit) {
            self.bit()
        } else if self.at(Form::BitText) {
            self.text()
        } else if self.at(Form::BitString) {
            self.string()
        } else {
            self.named(room)
        }
    }

    /// Behind `not`.
    #[cycle(parser)]
    #[tactic(auto, unfolding(crate::specs::Reading::inverse_at))]
    fn inverse(&mut self, room: u32) -> Result<ParsedExpr, Stop>
        ensures { Gives view result self.new (inverse_at room (enter_at room) self.old) }
    {
        let line = self.take_operator(Form::Keyword(Keyword::Not))?.line;
        let operand = self.primary(room)?;
        Ok(ParsedExpr::Not(line, Box::new(self.alloc(), operand)?))
    }

    #[cycle(parser)]
    #[tactic(auto, unfolding(crate::specs::Reading::factor_at))]
    fn factor(&mut self, room: u32) -> Result<ParsedExpr, Stop>
        ensures { Gives view result self.new (factor_at room (enter_at room) self.old) }
    {
        if self.at(Form::Keyword(Keyword::Not)) {
            self.inverse(room)
        } else {
            self.primary(room)
        }
    }

    /// A factor behind a `&`.
    #[cycle(parser)]
    #[tactic(auto, unfolding(crate::specs::Reading::joined_at))]
    fn joined_factor(&mut self, room: u32) -> Result<(u32, ParsedExpr), Stop>
        ensures { Gives operand_of result self.new (joined_at (Form.Sign Sign.Ampersand) (factor_at room (enter_at room)) self.old) }
    {
        let line = self.take_operator(Form::Sign(Sign::Ampersand))?.line;
        let operand = self.factor(room)?;
        Ok((line, operand))
    }

    /// Factors, each behind a `&`.
    #[cycle(parser)]
    fn more_factors(&mut self, room: u32) -> Result<Vec<(u32, ParsedExpr)>, Stop>
        ensures { Gives (λ v. map operand_of v.items) result self.new
            (list_at (code (Form.Sign Sign.Ampersand) ∷ []) (joined_at (Form.Sign Sign.Ampersand) (factor_at room (enter_at room))) self.old) }
    {
        let mut others = Vec::new(self.alloc());
        while self.at(Form::Sign(Sign::Ampersand)) {
            let item = self.joined_factor(room)?;
            others.push(item)?;
        }
        Ok(others)
    }

    #[cycle(parser)]
    #[tactic(auto, unfolding(crate::specs::Reading::cat_at))]
    fn cat(&mut self, room: u32) -> Result<ParsedExpr, Stop>
        ensures { Gives view result self.new (cat_at room (enter_at room) self.old) }
    {
        let first = self.factor(room)?;
        let others = self.more_factors(room)?;
        join(self.alloc(), Operator::Join, first, others)
    }

    /// An operator and the second of two operands that are compared.
    #[cycle(parser)]
    #[tactic(auto, unfolding(crate::specs::Reading::pair_at, crate::specs::Reading::joined_at))]
    fn comparison(
        &mut self,
        form: Form,
        operator: Operator,
        left: ParsedExpr,
        room: u32,
    ) -> Result<ParsedExpr, Stop>
        ensures { Gives view result self.new (pair_at form operator (cat_at room (enter_at room)) (view left) self.old) }
    {
        let line = self.take_operator(form)?.line;
        let right = self.cat(room)?;
        join_two(self.alloc(), operator, line, left, right)
    }

    /// Behind the first operand of a relation.
    #[cycle(parser)]
    #[tactic(auto, unfolding(crate::specs::Reading::compared_at))]
    fn compared(&mut self, left: ParsedExpr, room: u32) -> Result<ParsedExpr, Stop>
        ensures { Gives view result self.new (compared_at (cat_at room (enter_at room)) (view left) self.old) }
    {
        if self.at(Form::Sign(Sign::Equal)) {
            self.comparison(Form::Sign(Sign::Equal), Operator::Equal, left, room)
        } else if self.at(Form::Sign(Sign::Unequal)) {
            self.comparison(Form::Sign(Sign::Unequal), Operator::Unequal, left, room)
        } else {
            Ok(left)
        }
    }

    #[cycle(parser)]
    #[tactic(auto, unfolding(crate::specs::Reading::relation_at))]
    fn relation(&mut self, room: u32) -> Result<ParsedExpr, Stop>
        ensures { Gives view result self.new (relation_at room (enter_at room) self.old) }
    {
        let left = self.cat(room)?;
        self.compared(left, room)
    }

    /// A relation behind an operator.
    #[cycle(parser)]
    #[tactic(auto, unfolding(crate::specs::Reading::joined_at))]
    fn joined_relation(&mut self, form: Form, room: u32) -> Result<(u32, ParsedExpr), Stop>
        ensures { Gives operand_of result self.new (joined_at form (relation_at room (enter_at room)) self.old) }
    {
        let line = self.take_operator(form)?.line;
        let operand = self.relation(room)?;
        Ok((line, operand))
    }

    /// Relations, each behind the same operator: the first, and those behind it.
    #[cycle(parser)]
    fn more_relations(
        &mut self,
        form: Form,
        first: (u32, ParsedExpr),
        room: u32,
    ) -> Result<Vec<(u32, ParsedExpr)>, Stop>
        ensures { Gives (λ v. map operand_of v.items) result self.new
            (with_front (operand_of first ∷ []) (list_at (code form ∷ []) (joined_at form (relation_at room (enter_at room))) self.old)) }
    {
        let mut others = Vec::new(self.alloc());
        others.push(first)?;
        while self.at(form) {
            let item = self.joined_relation(form, room)?;
            others.push(item)?;
        }
        Ok(others)
    }

    /// Relations with one operator between them, from the first operator on.
    #[cycle(parser)]
    #[tactic(auto, unfolding(crate::specs::Reading::chain_at))]
    fn chain(
        &mut self,
        form: Form,
        operator: Operator,
        left: ParsedExpr,
        room: u32,
    ) -> Result<ParsedExpr, Stop>
        ensures { Gives view result self.new (chain_at form operator (relation_at room (enter_at room)) (view left) self.old) }
    {
        let first = self.joined_relation(form, room)?;
        let others = self.more_relations(form, first, room)?;
        join(self.alloc(), operator, left, others)
    }

    /// One more relation, behind an operator that joins two alone.
    #[cycle(parser)]
    #[tactic(auto, unfolding(crate::specs::Reading::pair_at))]
    fn pair(
        &mut self,
        form: Form,
        operator: Operator,
        left: ParsedExpr,
        room: u32,
    ) -> Result<ParsedExpr, Stop>
        ensures { Gives view result self.new (pair_at form operator (relation_at room (enter_at room)) (view left) self.old) }
    {
        let (line, right) = self.joined_relation(form, room)?;
        join_two(self.alloc(), operator, line, left, right)
    }

    /// Behind the first relation of an expression.
    #[cycle(parser)]
    #[tactic(auto, unfolding(crate::specs::Reading::logical_at))]
    fn logical(&mut self, left: ParsedExpr, room: u32) -> Result<ParsedExpr, Stop>
        ensures { Gives view result self.new (logical_at (relation_at room (enter_at room)) (view left) self.old) }
    {
        if self.at(Form::Keyword(Keyword::And)) {
            self.chain(Form::Keyword(Keyword::And), Operator::And, left, room)
        } else if self.at(Form::Keyword(Keyword::Or)) {
            self.chain(Form::Keyword(Keyword::Or), Operator::Or, left, room)
        } else if self.at(Form::Keyword(Keyword::Xor)) {
            self.chain(Form::Keyword(Keyword::Xor), Operator::Xor, left, room)
        } else if self.at(Form::Keyword(Keyword::Xnor)) {
            self.chain(Form::Keyword(Keyword::Xnor), Operator::Xnor, left, room)
        } else if self.at(Form::Keyword(Keyword::Nand)) {
            self.pair(Form::Keyword(Keyword::Nand), Operator::Nand, left, room)
        } else if self.at(Form::Keyword(Keyword::Nor)) {
            self.pair(Form::Keyword(Keyword::Nor), Operator::Nor, left, room)
        } else {
            Ok(left)
        }
    }

    /// An expression, where so many more parentheses may be open.
    #[cycle(parser)]
    #[tactic(auto, unfolding(crate::specs::Reading::expression_over_at))]
    pub fn expression(&mut self, room: u32) -> Result<ParsedExpr, Stop>
        ensures { Gives view result self.new (expression_at room self.old) }
    {
        let left = self.relation(room)?;
        self.logical(left, room)
    }
}
