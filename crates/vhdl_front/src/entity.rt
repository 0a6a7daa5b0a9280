// Reading entities and declarations of signals.
ghost use Rattle.std.specs.Prelude.{◌≡◌, ◌+◌, ◌-◌, ◌*◌, ◌^◌, ◌≤◌, ◌∷◌, [], length, min};
ghost use Rattle.grammar_theory.specs.Tokens.{code};
ghost use Rattle.grammar_theory.specs.Outcome.{Gives, list_at, with_front};
ghost use Rattle.vhdl_front.specs.Entity.{width as width_of};
ghost use Rattle.vhdl_front.specs.EntityReading.{identifier_at, declared_at, declared_here_at, another_at, led_names_at, own_names_at, names_at, bounds_at, range_at, scalar_at, vector_at, port_type_at, register_at, registered_at, signal_type_at, given_at, default_at, generic_at, next_generic_at, closed_at, generics_at, generic_clause_at, optional_generics_at, one_mode_at, port_mode_at, taken_bus_at, bus_at, port_behind_at, port_at, next_port_at, ports_at, port_clause_at, entity_head_at, stop_at, repeated_at, ending_at, entity_at, signal_at, signals_at, declarations_at};

use crate::cursor::{Cursor, name_bytes};
use grammar_theory::{Form, Stop};
use vhdl_token::{Keyword, Sign};
use vlsi_base::{
    Declarations, Entity, Generic, Generics, Mode, NewName, NewNames, PortGroup, PortGroups, Range,
    SignalGroup, SignalGroups, SignalType, Text, TypeWord,
};

/// How many bits a range has; none where its bounds don't stand in the order of its word.
fn width(left: u32, falls: bool, right: u32) -> u64
    ensures value { result ≡ width_of left falls right }
    ensures most { result ≤ 2 ^ 32 }
{
    if falls {
        if right <= left {
            u64::from(left - right) + 1
        } else {
            0
        }
    } else if left <= right {
        u64::from(right - left) + 1
    } else {
        0
    }
}

impl Cursor<'_> {
    /// An identifier.
    #[tactic(auto, unfolding(crate::specs::EntityReading::identifier_at))]
    pub fn name(&mut self) -> Result<Text, Stop>
        ensures { Gives (λ n. n) result self.new (identifier_at self.old) }
    {
        let token = self.take(Form::Identifier)?;
        let name = Text::from_bytes(self.alloc(), name_bytes(token))?;
        Ok(name)
    }

    /// A name with which its declaration begins.
    #[tactic(auto, unfolding(crate::specs::EntityReading::declared_here_at))]
    fn declared_here(&mut self) -> Result<NewName, Stop>
        ensures { Gives (λ n. n) result self.new (declared_here_at self.old) }
    {
        let token = self.declare_first()?;
        let text = Text::from_bytes(self.alloc(), name_bytes(token))?;
        Ok(NewName {
            text,
            line: token.line,
        })
    }

    /// A name of a declaration that begins on this line.
    #[tactic(auto, unfolding(crate::specs::EntityReading::declared_at))]
    fn declared(&mut self, line: u32) -> Result<NewName, Stop>
        ensures { Gives (λ n. n) result self.new (declared_at line self.old) }
    {
        let token = self.declare(line)?;
        let text = Text::from_bytes(self.alloc(), name_bytes(token))?;
        Ok(NewName {
            text,
            line: token.line,
        })
    }

    #[tactic(auto, unfolding(crate::specs::EntityReading::another_at))]
    fn another(&mut self, line: u32) -> Result<NewName, Stop>
        ensures { Gives (λ n. n) result self.new (another_at line self.old) }
    {
        let _comma = self.take(Form::Sign(Sign::Comma))?;
        self.declared(line)
    }

    /// The names of a declaration that begins on this line: the first, and those behind it.
    fn more_names(&mut self, line: u32, first: NewName) -> Result<Vec<NewName>, Stop>
        ensures { Gives (λ v. v.items) result self.new
            (with_front (first ∷ []) (list_at (code (Form.Sign Sign.Comma) ∷ []) (another_at line) self.old)) }
    {
        let mut names = Vec::new(self.alloc());
        names.push(first)?;
        while self.at(Form::Sign(Sign::Comma)) {
            let next = self.another(line)?;
            names.push(next)?;
        }
        Ok(names)
    }

    /// Names that are declared behind a word, and its line.
    #[tactic(auto, unfolding(crate::specs::EntityReading::led_names_at))]
    pub fn led_names(&mut self, word: Keyword) -> Result<(u32, NewNames), Stop>
        ensures { Gives (λ n. n) result self.new (led_names_at word self.old) }
    {
        let line = self.take(Form::Keyword(word))?.line;
        let first = self.declared(line)?;
        let names = self.more_names(line, first)?;
        Ok((line, NewNames::new(names)))
    }

    /// Names with no word before them, and the line of the first.
    #[tactic(auto, unfolding(crate::specs::EntityReading::own_names_at))]
    fn own_names(&mut self) -> Result<(u32, NewNames), Stop>
        ensures { Gives (λ n. n) result self.new (own_names_at self.old) }
    {
        let first = self.declared_here()?;
        let line = first.line;
        let names = self.more_names(line, first)?;
        Ok((line, NewNames::new(names)))
    }

    /// Names behind a word that may be left out, and the line of the first token.
    #[tactic(auto, unfolding(crate::specs::EntityReading::names_at))]
    fn names(&mut self, word: Keyword) -> Result<(u32, NewNames), Stop>
        ensures { Gives (λ n. n) result self.new (names_at word self.old) }
    {
        if self.at(Form::Keyword(word)) {
            self.led_names(word)
        } else {
            self.own_names()
        }
    }

    /// The two numbers of a range, and whether its word is `downto`.
    #[tactic(auto, unfolding(crate::specs::EntityReading::bounds_at))]
    fn bounds(&mut self) -> Result<(u32, bool, u32), Stop>
        ensures { Gives (λ b. b) result self.new (bounds_at self.old) }
    {
        let left = self.number()?;
        let falls = self.direction()?;
        let right = self.number()?;
        Ok((left, falls, right))
    }

    /// The range of a declaration of so many names.
    #[tactic(auto, unfolding(crate::specs::EntityReading::range_at))]
    fn range(&mut self, room: u32, count: usize) -> Result<Range, Stop>
        ensures { Gives (λ r. r) result self.new (range_at room count self.old) }
    {
        let line = self.open(room)?.line;
        let (left, falls, right) = self.bounds()?;
        let bits = width(left, falls, right);
        let _close = self.take_counting(Form::Sign(Sign::RightParen), count, bits)?;
        Ok(Range {
            left,
            falls,
            right,
            line,
        })
    }

    #[tactic(auto, unfolding(crate::specs::EntityReading::scalar_at))]
    fn scalar(&mut self, word: Keyword, kind: TypeWord, count: usize) -> Result<SignalType, Stop>
        ensures { Gives (λ k. k) result self.new (scalar_at word kind count self.old) }
    {
        let line = self.take_counting(Form::Keyword(word), count, 1)?.line;
        Ok(SignalType {
            word: kind,
            line,
            range: None,
        })
    }

    #[tactic(auto, unfolding(crate::specs::EntityReading::vector_at))]
    fn vector(
        &mut self,
        word: Keyword,
        kind: TypeWord,
        room: u32,
        count: usize,
    ) -> Result<SignalType, Stop>
        ensures { Gives (λ k. k) result self.new (vector_at word kind room count self.old) }
    {
        let line = self.take(Form::Keyword(word))?.line;
        let range = self.range(room, count)?;
        Ok(SignalType {
            word: kind,
            line,
            range: Some(range),
        })
    }

    /// The type in a declaration of so many names.
    #[tactic(auto, unfolding(crate::specs::EntityReading::port_type_at))]
    pub fn port_type(&mut self, room: u32, count: usize) -> Result<SignalType, Stop>
        ensures { Gives (λ k. k) result self.new (port_type_at room count self.old) }
    {
        if self.at(Form::Keyword(Keyword::Bit)) {
            self.scalar(Keyword::Bit, TypeWord::Bit, count)
        } else if self.at(Form::Keyword(Keyword::BitVector)) {
            self.vector(Keyword::BitVector, TypeWord::BitVector, room, count)
        } else if self.at(Form::Keyword(Keyword::MuxBit)) {
            self.scalar(Keyword::MuxBit, TypeWord::MuxBit, count)
        } else if self.at(Form::Keyword(Keyword::WorBit)) {
            self.scalar(Keyword::WorBit, TypeWord::WorBit, count)
        } else if self.at(Form::Keyword(Keyword::MuxVector)) {
            self.vector(Keyword::MuxVector, TypeWord::MuxVector, room, count)
        } else {
            self.vector(Keyword::WorVector, TypeWord::WorVector, room, count)
        }
    }

    /// The word `register` behind a type.
    #[tactic(auto, unfolding(crate::specs::EntityReading::register_at))]
    fn register(&mut self, kind: SignalType) -> Result<SignalType, Stop>
        ensures { Gives (λ k. k) result self.new (register_at kind self.old) }
    {
        let _word = self.take(Form::Keyword(Keyword::Register))?;
        Ok(kind)
    }

    #[tactic(auto, unfolding(crate::specs::EntityReading::registered_at))]
    fn scalar_register(&mut self, count: usize) -> Result<SignalType, Stop>
        ensures { Gives (λ k. k) result self.new (registered_at (scalar_at Keyword.RegBit TypeWord.RegBit count) self.old) }
    {
        let kind = self.scalar(Keyword::RegBit, TypeWord::RegBit, count)?;
        self.register(kind)
    }

    #[tactic(auto, unfolding(crate::specs::EntityReading::registered_at))]
    fn vector_register(
        &mut self,
        word: Keyword,
        kind: TypeWord,
        room: u32,
        count: usize,
    ) -> Result<SignalType, Stop>
        ensures { Gives (λ k. k) result self.new (registered_at (vector_at word kind room count) self.old) }
    {
        let kind = self.vector(word, kind, room, count)?;
        self.register(kind)
    }

    #[tactic(auto, unfolding(crate::specs::EntityReading::signal_type_at))]
    fn signal_type(&mut self, room: u32, count: usize) -> Result<SignalType, Stop>
        ensures { Gives (λ k. k) result self.new (signal_type_at room count self.old) }
    {
        if self.at(Form::Keyword(Keyword::Bit)) {
            self.scalar(Keyword::Bit, TypeWord::Bit, count)
        } else if self.at(Form::Keyword(Keyword::BitVector)) {
            self.vector(Keyword::BitVector, TypeWord::BitVector, room, count)
        } else if self.at(Form::Keyword(Keyword::RegBit)) {
            self.scalar_register(count)
        } else if self.at(Form::Keyword(Keyword::RegVector)) {
            self.vector_register(Keyword::RegVector, TypeWord::RegVector, room, count)
        } else {
            self.vector_register(Keyword::RegBitVector, TypeWord::RegBitVector, room, count)
        }
    }

    #[tactic(auto, unfolding(crate::specs::EntityReading::default_at, crate::specs::EntityReading::given_at))]
    fn default_value(&mut self) -> Result<Option<u32>, Stop>
        ensures { Gives (λ v. v) result self.new (default_at self.old) }
    {
        if self.at(Form::Sign(Sign::Default)) {
            let _sign = self.take(Form::Sign(Sign::Default))?;
            let value = self.number()?;
            Ok(Some(value))
        } else {
            Ok(None)
        }
    }

    #[tactic(auto, unfolding(crate::specs::EntityReading::generic_at))]
    fn generic(&mut self) -> Result<Generic, Stop>
        ensures { Gives (λ g. g) result self.new (generic_at self.old) }
    {
        let (line, names) = self.names(Keyword::Constant)?;
        let _colon = self.take(Form::Sign(Sign::Colon))?;
        let kind = self.name()?;
        let value = self.default_value()?;
        Ok(Generic {
            line,
            names,
            kind,
            value,
        })
    }

    #[tactic(auto, unfolding(crate::specs::EntityReading::next_generic_at))]
    fn next_generic(&mut self) -> Result<Generic, Stop>
        ensures { Gives (λ g. g) result self.new (next_generic_at self.old) }
    {
        let _semicolon = self.take(Form::Sign(Sign::Semicolon))?;
        self.generic()
    }

    /// The first generic, and those behind it.
    fn more_generics(&mut self, first: Generic) -> Result<Vec<Generic>, Stop>
        ensures { Gives (λ v. v.items) result self.new
            (with_front (first ∷ []) (list_at (code (Form.Sign Sign.Semicolon) ∷ []) next_generic_at self.old)) }
    {
        let mut generics = Vec::new(self.alloc());
        generics.push(first)?;
        while self.at(Form::Sign(Sign::Semicolon)) {
            let next = self.next_generic()?;
            generics.push(next)?;
        }
        Ok(generics)
    }

    #[tactic(auto, unfolding(crate::specs::EntityReading::generics_at, crate::specs::EntityReading::closed_at))]
    fn generics(&mut self) -> Result<Generics, Stop>
        ensures { Gives (λ g. g) result self.new (generics_at self.old) }
    {
        let first = self.generic()?;
        let generics = self.more_generics(first)?;
        let _close = self.take(Form::Sign(Sign::RightParen))?;
        let _semicolon = self.take(Form::Sign(Sign::Semicolon))?;
        Ok(Generics::new(generics))
    }

    #[tactic(auto, unfolding(crate::specs::EntityReading::optional_generics_at, crate::specs::EntityReading::generic_clause_at))]
    fn optional_generics(&mut self, room: u32) -> Result<Generics, Stop>
        ensures { Gives (λ g. g) result self.new (optional_generics_at room self.old) }
    {
        if self.at(Form::Keyword(Keyword::Generic)) {
            let _word = self.take(Form::Keyword(Keyword::Generic))?;
            let _open = self.open(room)?;
            self.generics()
        } else {
            Ok(Generics::new(Vec::new(self.alloc())))
        }
    }

    #[tactic(auto, unfolding(crate::specs::EntityReading::one_mode_at))]
    fn one_mode(&mut self, word: Keyword, mode: Mode) -> Result<(Mode, u32), Stop>
        ensures { Gives (λ m. m) result self.new (one_mode_at word mode self.old) }
    {
        let line = self.take(Form::Keyword(word))?.line;
        Ok((mode, line))
    }

    #[tactic(auto, unfolding(crate::specs::EntityReading::port_mode_at))]
    fn port_mode(&mut self) -> Result<(Mode, u32), Stop>
        ensures { Gives (λ m. m) result self.new (port_mode_at self.old) }
    {
        if self.at(Form::Keyword(Keyword::In)) {
            self.one_mode(Keyword::In, Mode::In)
        } else if self.at(Form::Keyword(Keyword::Out)) {
            self.one_mode(Keyword::Out, Mode::Out)
        } else {
            self.one_mode(Keyword::Inout, Mode::Inout)
        }
    }

    #[tactic(auto, unfolding(crate::specs::EntityReading::bus_at, crate::specs::EntityReading::taken_bus_at))]
    fn bus(&mut self) -> Result<bool, Stop>
        ensures { Gives (λ b. b) result self.new (bus_at self.old) }
    {
        if self.at(Form::Keyword(Keyword::Bus)) {
            let _word = self.take(Form::Keyword(Keyword::Bus))?;
            Ok(true)
        } else {
            Ok(false)
        }
    }

    /// Mode and type of ports behind their names, which begin on this line.
    #[tactic(auto, unfolding(crate::specs::EntityReading::port_behind_at))]
    pub fn port_behind(&mut self, room: u32, line: u32, names: NewNames) -> Result<PortGroup, Stop>
        ensures { Gives (λ p. p) result self.new (port_behind_at room (line, names) self.old) }
    {
        let _colon = self.take(Form::Sign(Sign::Colon))?;
        let (mode, mode_line) = self.port_mode()?;
        let kind = self.port_type(room, names.as_slice().len())?;
        let bus = self.bus()?;
        Ok(PortGroup {
            line,
            names,
            mode,
            mode_line,
            kind,
            bus,
        })
    }

    #[tactic(auto, unfolding(crate::specs::EntityReading::port_at))]
    fn port(&mut self, room: u32) -> Result<PortGroup, Stop>
        ensures { Gives (λ p. p) result self.new (port_at room self.old) }
    {
        let (line, names) = self.names(Keyword::Signal)?;
        self.port_behind(room, line, names)
    }

    #[tactic(auto, unfolding(crate::specs::EntityReading::next_port_at))]
    fn next_port(&mut self, room: u32) -> Result<PortGroup, Stop>
        ensures { Gives (λ p. p) result self.new (next_port_at room self.old) }
    {
        let _semicolon = self.take(Form::Sign(Sign::Semicolon))?;
        self.port(room)
    }

    /// The first ports, and those behind them.
    fn more_ports(&mut self, room: u32, first: PortGroup) -> Result<Vec<PortGroup>, Stop>
        ensures { Gives (λ v. v.items) result self.new
            (with_front (first ∷ []) (list_at (code (Form.Sign Sign.Semicolon) ∷ []) (next_port_at room) self.old)) }
    {
        let mut ports = Vec::new(self.alloc());
        ports.push(first)?;
        while self.at(Form::Sign(Sign::Semicolon)) {
            let next = self.next_port(room)?;
            ports.push(next)?;
        }
        Ok(ports)
    }

    #[tactic(auto, unfolding(crate::specs::EntityReading::ports_at, crate::specs::EntityReading::closed_at))]
    fn ports(&mut self, room: u32) -> Result<PortGroups, Stop>
        ensures { Gives (λ p. p) result self.new (ports_at room self.old) }
    {
        let first = self.port(room)?;
        let ports = self.more_ports(room, first)?;
        let _close = self.take(Form::Sign(Sign::RightParen))?;
        let _semicolon = self.take(Form::Sign(Sign::Semicolon))?;
        Ok(PortGroups::new(ports))
    }

    #[tactic(auto, unfolding(crate::specs::EntityReading::port_clause_at))]
    fn port_clause(&mut self, room: u32) -> Result<PortGroups, Stop>
        ensures { Gives (λ p. p) result self.new (port_clause_at room self.old) }
    {
        let _word = self.take(Form::Keyword(Keyword::Port))?;
        let _open = self.open(room)?;
        self.ports(room - 1)
    }

    #[tactic(auto, unfolding(crate::specs::EntityReading::entity_head_at))]
    fn entity_head(&mut self) -> Result<Text, Stop>
        ensures { Gives (λ n. n) result self.new (entity_head_at self.old) }
    {
        let _word = self.take(Form::Keyword(Keyword::Entity))?;
        let name = self.name()?;
        let _is = self.take(Form::Keyword(Keyword::Is))?;
        Ok(name)
    }

    /// The name that was opened may stand behind `end`.
    #[tactic(auto, unfolding(crate::specs::EntityReading::ending_at, crate::specs::EntityReading::repeated_at, crate::specs::EntityReading::stop_at))]
    fn ending(&mut self, entity: Entity) -> Result<Entity, Stop>
        ensures { Gives (λ e. e) result self.new (ending_at entity.name entity self.old) }
    {
        let _word = self.take(Form::Keyword(Keyword::End))?;
        if self.at(Form::Identifier) {
            let _name = self.take_spelled(entity.name.as_bytes())?;
            let _semicolon = self.take(Form::Sign(Sign::Semicolon))?;
            Ok(entity)
        } else {
            let _semicolon = self.take(Form::Sign(Sign::Semicolon))?;
            Ok(entity)
        }
    }

    /// An entity, where so many parentheses more may be open.
    #[tactic(auto, unfolding(crate::specs::EntityReading::entity_at))]
    pub fn entity(&mut self, room: u32) -> Result<Entity, Stop>
        ensures { Gives (λ e. e) result self.new (entity_at room self.old) }
    {
        let name = self.entity_head()?;
        let generics = self.optional_generics(room)?;
        let ports = self.port_clause(room)?;
        self.ending(Entity {
            name,
            generics,
            ports,
        })
    }

    #[tactic(auto, unfolding(crate::specs::EntityReading::signal_at))]
    fn signal(&mut self, room: u32) -> Result<SignalGroup, Stop>
        ensures { Gives (λ s. s) result self.new (signal_at room self.old) }
    {
        let (line, names) = self.led_names(Keyword::Signal)?;
        let _colon = self.take(Form::Sign(Sign::Colon))?;
        let kind = self.signal_type(room, names.as_slice().len())?;
        let _semicolon = self.take(Form::Sign(Sign::Semicolon))?;
        Ok(SignalGroup { line, names, kind })
    }

    #[tactic(auto, unfolding(crate::specs::EntityReading::signals_at))]
    fn signals(&mut self, room: u32) -> Result<Vec<SignalGroup>, Stop>
        ensures { Gives (λ v. v.items) result self.new (signals_at room self.old) }
    {
        let mut signals = Vec::new(self.alloc());
        while self.at(Form::Keyword(Keyword::Signal)) {
            let next = self.signal(room)?;
            signals.push(next)?;
        }
        Ok(signals)
    }

    /// Declarations of signals, as long as there are any.
    #[tactic(auto, unfolding(crate::specs::EntityReading::declarations_at))]
    pub fn declarations(&mut self, room: u32) -> Result<Declarations, Stop>
        ensures { Gives (λ d. d) result self.new (declarations_at room self.old) }
    {
        let signals = self.signals(room)?;
        Ok(Declarations {
            signals: SignalGroups::new(signals),
        })
    }
}
