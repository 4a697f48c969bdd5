//! Columns, kinds and items, read from the front.
ghost use Rattle.std.specs.Prelude.{◌≡◌};
ghost use Rattle.star_parser.specs.Reader.{Gave};
ghost use Rattle.star_parser.specs.Reading.{kind_at, dotted_at, column_at, counted_column_at, counted_at, bracketed_column_at, item_at};

use crate::ast::AstItem;
use crate::parser::{Parser, Stop};
use crate::tree::Column;
use star_lexer::{Keyword, Sign};
use star_values::{Kind, SmallText};

impl Parser<'_> {
    pub fn kind(&mut self) -> Result<Kind, Stop>
        ensures { Gave (λ kind. kind) result self.new.rest.now (kind_at self.old.rest.now) }
    {
        if self.skip_keyword(Keyword::Int) {
            Ok(Kind::Int)
        } else {
            self.keyword(Keyword::Text)?;
            Ok(Kind::Text)
        }
    }

    /// The name behind a dot, where a dot stands.
    fn dotted(&mut self) -> Result<Option<SmallText>, Stop>
        ensures { Gave (λ name. name) result self.new.rest.now (dotted_at self.old.rest.now) }
    {
        if self.skip_sign(Sign::Dot) {
            Ok(Some(self.name()?))
        } else {
            Ok(None)
        }
    }

    #[tactic(auto, unfolding(crate::specs::Reading::column_at))]
    pub fn column(&mut self) -> Result<Column, Stop>
        ensures { Gave (λ column. column) result self.new.rest.now (column_at self.old.rest.now) }
    {
        let first = self.name()?;
        match self.dotted()? {
            Some(name) => Ok(Column {
                table: Some(first),
                name,
            }),
            None => Ok(Column {
                table: None,
                name: first,
            }),
        }
    }

    #[tactic(auto, unfolding(crate::specs::Reading::bracketed_column_at))]
    fn bracketed_column(&mut self) -> Result<Column, Stop>
        ensures { Gave (λ column. column) result self.new.rest.now
            (bracketed_column_at self.old.rest.now) }
    {
        self.sign(Sign::Open)?;
        let column = self.column()?;
        self.close(column)
    }

    fn counted_column(&mut self) -> Result<AstItem, Stop>
        ensures { Gave (λ item. item) result self.new.rest.now
            (counted_column_at self.old.rest.now) }
    {
        if self.skip_sign(Sign::Star) {
            Ok(AstItem::CountAll)
        } else {
            Ok(AstItem::Count(self.column()?))
        }
    }

    #[tactic(auto, unfolding(crate::specs::Reading::counted_at))]
    fn counted(&mut self) -> Result<AstItem, Stop>
        ensures { Gave (λ item. item) result self.new.rest.now (counted_at self.old.rest.now) }
    {
        self.sign(Sign::Open)?;
        let item = self.counted_column()?;
        self.close(item)
    }

    #[tactic(auto, unfolding(crate::specs::Reading::item_at))]
    pub fn item(&mut self) -> Result<AstItem, Stop>
        ensures { Gave (λ item. item) result self.new.rest.now (item_at self.old.rest.now) }
    {
        if self.skip_keyword(Keyword::Count) {
            self.counted()
        } else if self.skip_keyword(Keyword::Sum) {
            Ok(AstItem::Sum(self.bracketed_column()?))
        } else if self.skip_keyword(Keyword::Min) {
            Ok(AstItem::Min(self.bracketed_column()?))
        } else if self.skip_keyword(Keyword::Max) {
            Ok(AstItem::Max(self.bracketed_column()?))
        } else {
            Ok(AstItem::Plain(self.column()?))
        }
    }
}
