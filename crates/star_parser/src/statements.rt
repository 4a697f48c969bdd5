//! Statements, read from the front.
ghost use Rattle.std.specs.Prelude.{◌≡◌, Some, option_map, IfOk};
ghost use Rattle.star_parser.specs.Condition.{condition_of};
ghost use Rattle.star_parser.specs.Statement.{statement_of};
ghost use Rattle.star_parser.specs.Reader.{Gave};
ghost use Rattle.star_parser.specs.Reading.{where_at, group_at, plain_column_at, other_columns_at, dimension_columns_at, target_at, fact_column_at, dimension_at, fact_at, header_at, load_at, delete_at, select_at, statement_at, semicolon_at, sentence_at};

use crate::ast::{Ast, AstColumn};
use crate::lists::{AstColumnList, AstItemList, GroupColumnList, NameList};
use crate::parser::{Parser, Stop};
use crate::tree::{Column, Tree};
use star_lexer::{Keyword, Sign};
use star_values::SmallText;

impl Parser<'_> {
    /// The whole of the symbols as one statement.
    #[tactic(auto, unfolding(crate::specs::Reading::sentence_at))]
    pub fn sentence(&mut self) -> Result<Ast, Stop>
        ensures { Gave statement_of result self.new.rest.now (sentence_at self.old.rest.now) }
    {
        let statement = self.statement()?;
        self.skip_semicolon();
        self.end(statement)
    }

    #[tactic(auto, unfolding(crate::specs::Reading::statement_at))]
    fn statement(&mut self) -> Result<Ast, Stop>
        ensures { Gave statement_of result self.new.rest.now (statement_at self.old.rest.now) }
    {
        if self.skip_keyword(Keyword::Dimension) {
            self.dimension()
        } else if self.skip_keyword(Keyword::Fact) {
            self.fact()
        } else if self.skip_keyword(Keyword::Load) {
            self.load()
        } else if self.skip_keyword(Keyword::Delete) {
            self.delete()
        } else if self.skip_keyword(Keyword::Select) {
            self.select()
        } else {
            self.keyword(Keyword::Wait)?;
            Ok(Ast::Wait)
        }
    }

    #[tactic(auto, unfolding(crate::specs::Reading::semicolon_at))]
    fn skip_semicolon(&mut self)
        ensures { semicolon_at self.old.rest.now ≡ (Some tt, self.new.rest.now) }
    {
        let _skipped = self.skip_sign(Sign::Semicolon);
    }

    #[tactic(auto, unfolding(crate::specs::Reading::dimension_at))]
    fn dimension(&mut self) -> Result<Ast, Stop>
        ensures { Gave statement_of result self.new.rest.now (dimension_at self.old.rest.now) }
    {
        let name = self.name()?;
        self.sign(Sign::Open)?;
        let columns = self.dimension_columns()?;
        self.sign(Sign::Close)?;
        Ok(Ast::Dimension {
            name,
            columns: AstColumnList::from(columns),
        })
    }

    /// The key, and then the other columns.
    #[tactic(auto, unfolding(crate::specs::Reading::dimension_columns_at))]
    fn dimension_columns(&mut self) -> Result<Vec<AstColumn>, Stop>
        ensures { Gave (λ columns. columns.items) result self.new.rest.now
            (dimension_columns_at self.old.rest.now) }
    {
        let key = self.plain_column()?;
        self.keyword(Keyword::Key)?;
        let mut columns = self.other_columns()?;
        columns.insert(0, key)?;
        Ok(columns)
    }

    #[tactic(auto, unfolding(crate::specs::Reading::other_columns_at))]
    fn other_columns(&mut self) -> Result<Vec<AstColumn>, Stop>
        ensures { Gave (λ columns. columns.items) result self.new.rest.now
            (other_columns_at self.old.rest.now) }
    {
        if self.skip_sign(Sign::Comma) {
            self.plain_columns()
        } else {
            Ok(Vec::new(self.alloc))
        }
    }

    #[tactic(auto, unfolding(crate::specs::Reading::plain_column_at))]
    pub fn plain_column(&mut self) -> Result<AstColumn, Stop>
        ensures { Gave (λ column. column) result self.new.rest.now
            (plain_column_at self.old.rest.now) }
    {
        let name = self.name()?;
        let kind = self.kind()?;
        Ok(AstColumn {
            name,
            kind,
            references: None,
        })
    }

    #[tactic(auto, unfolding(crate::specs::Reading::fact_at))]
    fn fact(&mut self) -> Result<Ast, Stop>
        ensures { Gave statement_of result self.new.rest.now (fact_at self.old.rest.now) }
    {
        let name = self.name()?;
        self.sign(Sign::Open)?;
        let columns = self.fact_columns()?;
        self.sign(Sign::Close)?;
        Ok(Ast::Fact {
            name,
            columns: AstColumnList::from(columns),
        })
    }

    #[tactic(auto, unfolding(crate::specs::Reading::fact_column_at))]
    pub fn fact_column(&mut self) -> Result<AstColumn, Stop>
        ensures { Gave (λ column. column) result self.new.rest.now
            (fact_column_at self.old.rest.now) }
    {
        let name = self.name()?;
        let kind = self.kind()?;
        let references = self.target()?;
        Ok(AstColumn {
            name,
            kind,
            references,
        })
    }

    /// The dimension that a column references, if it references one.
    #[tactic(auto, unfolding(crate::specs::Reading::target_at))]
    fn target(&mut self) -> Result<Option<SmallText>, Stop>
        ensures { Gave (λ target. target) result self.new.rest.now (target_at self.old.rest.now) }
    {
        if self.skip_keyword(Keyword::References) {
            Ok(Some(self.name()?))
        } else {
            Ok(None)
        }
    }

    #[tactic(auto, unfolding(crate::specs::Reading::load_at, crate::specs::Reading::header_at))]
    fn load(&mut self) -> Result<Ast, Stop>
        ensures { Gave statement_of result self.new.rest.now (load_at self.old.rest.now) }
    {
        let name = self.name()?;
        let header = self.skip_keyword(Keyword::Header);
        Ok(Ast::Load { name, header })
    }

    #[tactic(auto, unfolding(crate::specs::Reading::delete_at))]
    fn delete(&mut self) -> Result<Ast, Stop>
        ensures { Gave statement_of result self.new.rest.now (delete_at self.old.rest.now) }
    {
        self.keyword(Keyword::From)?;
        let name = self.name()?;
        let condition = self.where_part()?;
        Ok(Ast::Delete { name, condition })
    }

    #[tactic(auto, unfolding(crate::specs::Reading::select_at))]
    fn select(&mut self) -> Result<Ast, Stop>
        ensures { Gave statement_of result self.new.rest.now (select_at self.old.rest.now) }
    {
        let items = self.items()?;
        self.keyword(Keyword::From)?;
        let tables = self.names()?;
        let condition = self.where_part()?;
        let (condition, groups) = self.with_groups(condition)?;
        Ok(Ast::Select {
            items: AstItemList::from(items),
            tables: NameList::from(tables),
            condition,
            groups: GroupColumnList::from(groups),
        })
    }

    #[tactic(auto, unfolding(crate::specs::Reading::where_at))]
    fn where_part(&mut self) -> Result<Option<Tree>, Stop>
        ensures { Gave (option_map condition_of) result self.new.rest.now
            (where_at self.old.rest.now) }
    {
        if self.skip_keyword(Keyword::Where) {
            Ok(Some(self.condition()?))
        } else {
            Ok(None)
        }
    }

    /// What was read, and the columns behind it.
    fn with_groups<T: Drop>(&mut self, front: T) -> Result<(T, Vec<Column>), Stop>
        ensures read { Gave (λ both. both.1.items) result self.new.rest.now
            (group_at self.old.rest.now) }
        ensures same { IfOk result (λ both. both.0 ≡ front) }
    {
        let groups = self.group_part()?;
        Ok((front, groups))
    }

    #[tactic(auto, unfolding(crate::specs::Reading::group_at))]
    fn group_part(&mut self) -> Result<Vec<Column>, Stop>
        ensures { Gave (λ columns. columns.items) result self.new.rest.now
            (group_at self.old.rest.now) }
    {
        if self.skip_keyword(Keyword::Group) {
            self.keyword(Keyword::By)?;
            self.columns()
        } else {
            Ok(Vec::new(self.alloc))
        }
    }
}
