//! The statements of the language: which lines are statements, the tree that each stands for,
//! the place where another line stops being one, and how a tree is printed. Its names are
//! bound to no tables here.
#![tactic(auto)]

mod ast;
mod columns;
mod conditions;
mod fault;
mod laws;
mod lists;
mod parser;
mod print_conditions;
mod print_symbols;
mod printing;
mod reading;
mod separated;
mod statements;
mod tree;

pub use ast::{Ast, AstColumn, AstItem};
pub use fault::ParseFault;
pub use laws::{lines_are_what_the_grammar_says, statements_have_their_shapes};
pub use lists::{AstColumnList, AstItemList, GroupColumnList, NameList};
pub use printing::print;
pub use reading::parse;
pub use tree::{Column, Relation, Tree, TreeList};
