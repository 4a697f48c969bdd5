//! A statement whose block may have been read before it is applied.
ghost use Rattle.std.specs.Prelude.{◌≡◌, IfOk, IfSome};
ghost use Rattle.star_parser.specs.Statement.{statement_of};
ghost use Rattle.star_store.specs.Form.{form_of_meaning, form_of_text};
ghost use Rattle.star_store.specs.Outcome.{block_bytes};
ghost use Rattle.star_store.specs.Text.{meaning_of};

use crate::load::is_over_every_table;
use crate::store::Store;
use crate::text::read_text;
use csv_load::{BlockForm, ReadBlock};
use script_reader::{Block, Statement};
use star_parser::Ast;
use star_values::NoMemory;
use std::alloc::Global;
use std::marker::Model;

/// A statement to be applied, and what its block was read as, where it was read before. It
/// is seen as the statement.
#[derive(Debug, Drop)]
pub struct ReadStatement<'a> {
    statement: &'a Statement,
    read: Option<ReadBlock<'a>>,
}

impl<'a> Model for ReadStatement<'a> {
    ghost use Rattle.std.specs.Prelude.{◌≡◌, IfSome};
    ghost use Rattle.script_reader.specs.declared.statement.Statement as written;
    ghost use Rattle.star_store.specs.Outcome.{block_bytes};

    ghost Value = { written.Statement };

    ghost view = { λ read. read.statement.now };

    ghost invariant = { λ read.
        IfSome read.read (λ block. block.block.now ≡ block_bytes read.statement.now.block) };
}

impl<'a> ReadStatement<'a> {
    /// A statement whose block is read as it is applied.
    pub fn unread(statement: &'a Statement) -> ReadStatement<'a>
        ensures { result ≡ statement.now }
    {
        ReadStatement {
            statement,
            read: None,
        }
    }

    /// A statement whose block is read now, by this form. A block of more records than any table
    /// takes is left to be refused as it is applied.
    pub fn read(
        alloc: Global,
        statement: &'a Statement,
        form: BlockForm,
    ) -> Result<ReadStatement<'a>, NoMemory>
        ensures { IfOk result (λ read. read ≡ statement.now) }
    {
        let block = block_bytes(&statement.block);
        if is_over_every_table(alloc, block, form.header)? {
            return Ok(ReadStatement::unread(statement));
        }
        let read = ReadBlock::read(alloc, form, block)?;
        Ok(ReadStatement {
            statement,
            read: Some(read),
        })
    }

    /// The statement.
    pub fn statement(&self) -> &'a Statement
        ensures { result.now ≡ self.now }
    {
        self.statement
    }

    /// Hands out what the block was read as. Behind it the block counts as not read.
    pub(crate) fn take_read(&mut self) -> Option<ReadBlock<'a>>
        ensures block { IfSome result (λ read. read.block.now ≡ block_bytes self.old.block) }
        ensures same { self.new ≡ self.old }
    {
        self.read.take()
    }
}

/// The bytes behind a line.
pub(crate) fn block_bytes(block: &Block) -> &[u8]
    ensures { result.now ≡ block_bytes block.now }
{
    match block {
        Block::Absent => &[],
        Block::Closed(bytes) | Block::Unclosed(bytes) => bytes.as_bytes(),
    }
}

/// By what form the block of a statement is to be read over these tables: that of a load into a
/// table that is there. Of any other statement no block is read.
pub fn block_form(
    alloc: Global,
    store: &Store,
    statement: &Statement,
) -> Result<Option<BlockForm>, NoMemory>
    ensures { IfOk result (λ form.
        form ≡ form_of_text store.now.schema (meaning_of statement.now)) }
{
    match read_text(alloc, statement)? {
        Ok(ast) => form_of(store, &ast),
        Err(_) => Ok(None),
    }
}

/// By what form the block of a statement of this meaning is to be read.
fn form_of(store: &Store, ast: &Ast) -> Result<Option<BlockForm>, NoMemory>
    ensures { IfOk result (λ form. form ≡ form_of_meaning store.now.schema (statement_of ast.now)) }
{
    match ast {
        Ast::Load { name, header } => store.block_form(name, *header),
        _ => Ok(None),
    }
}
