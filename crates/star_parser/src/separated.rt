//! Lists with a comma between each two, read from the front. Each has one member at least.
ghost use Rattle.star_parser.specs.Reader.{Gave};
ghost use Rattle.star_parser.specs.Reading.{names_at, items_at, columns_at, literals_at, plain_columns_at, fact_columns_at};

use crate::ast::{AstColumn, AstItem};
use crate::parser::{Parser, Stop};
use crate::tree::Column;
use star_lexer::Sign;
use star_values::{SmallText, Value};

impl Parser<'_> {
    #[tactic(auto, unfolding(crate::specs::Reading::names_at))]
    pub fn names(&mut self) -> Result<Vec<SmallText>, Stop>
        ensures { Gave (λ names. names.items) result self.new.rest.now
            (names_at self.old.rest.now) }
    {
        let mut names = Vec::new(self.alloc);
        'members: loop {
            names.push(self.name()?)?;
            if !self.skip_sign(Sign::Comma) {
                return Ok(names);
            }
        }
    }

    #[tactic(auto, unfolding(crate::specs::Reading::items_at))]
    pub fn items(&mut self) -> Result<Vec<AstItem>, Stop>
        ensures { Gave (λ items. items.items) result self.new.rest.now
            (items_at self.old.rest.now) }
    {
        let mut items = Vec::new(self.alloc);
        'members: loop {
            items.push(self.item()?)?;
            if !self.skip_sign(Sign::Comma) {
                return Ok(items);
            }
        }
    }

    #[tactic(auto, unfolding(crate::specs::Reading::columns_at))]
    pub fn columns(&mut self) -> Result<Vec<Column>, Stop>
        ensures { Gave (λ columns. columns.items) result self.new.rest.now
            (columns_at self.old.rest.now) }
    {
        let mut columns = Vec::new(self.alloc);
        'members: loop {
            columns.push(self.column()?)?;
            if !self.skip_sign(Sign::Comma) {
                return Ok(columns);
            }
        }
    }

    #[tactic(auto, unfolding(crate::specs::Reading::literals_at))]
    pub fn literals(&mut self) -> Result<Vec<Value>, Stop>
        ensures { Gave (λ values. values.items) result self.new.rest.now
            (literals_at self.old.rest.now) }
    {
        let mut values = Vec::new(self.alloc);
        'members: loop {
            values.push(self.literal()?)?;
            if !self.skip_sign(Sign::Comma) {
                return Ok(values);
            }
        }
    }

    #[tactic(auto, unfolding(crate::specs::Reading::plain_columns_at))]
    pub fn plain_columns(&mut self) -> Result<Vec<AstColumn>, Stop>
        ensures { Gave (λ columns. columns.items) result self.new.rest.now
            (plain_columns_at self.old.rest.now) }
    {
        let mut columns = Vec::new(self.alloc);
        'members: loop {
            columns.push(self.plain_column()?)?;
            if !self.skip_sign(Sign::Comma) {
                return Ok(columns);
            }
        }
    }

    #[tactic(auto, unfolding(crate::specs::Reading::fact_columns_at))]
    pub fn fact_columns(&mut self) -> Result<Vec<AstColumn>, Stop>
        ensures { Gave (λ columns. columns.items) result self.new.rest.now
            (fact_columns_at self.old.rest.now) }
    {
        let mut columns = Vec::new(self.alloc);
        'members: loop {
            columns.push(self.fact_column()?)?;
            if !self.skip_sign(Sign::Comma) {
                return Ok(columns);
            }
        }
    }
}
