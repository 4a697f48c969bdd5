//! Conditions, read from the front.
ghost use Rattle.std.specs.Prelude.{◌≡◌, ◌++◌, map, OnOk};
ghost use Rattle.star_parser.specs.Reader.{Gave};
ghost use Rattle.star_parser.specs.Condition.{condition_of, conditions, conjuncts, disjuncts, alone_or};
ghost use Rattle.star_parser.specs.Condition as plain;
ghost use Rattle.star_parser.specs.Reading.{compared_at, equal_to_at, upper_bound_at, between_at, bracketed_literals_at, listed_at, ranged_at, not_ranged_at, ranged_test_at, ordered_at, tested_at, test_at, negated_at, not_negated_at, closed_at, one_at, conjuncts_at, all_at, disjuncts_at, any_at, condition_at};

use crate::parser::{Parser, Stop};
use crate::tree::{Column, Relation, Tree, TreeList};
use star_lexer::{Keyword, Sign};
use star_values::{LiteralList, NoMemory, Value};

impl Parser<'_> {
    /// A condition. As many `not` and parentheses can stand around each other as there are symbols.
    #[tactic(auto, unfolding(crate::specs::Reading::condition_at))]
    pub fn condition(&mut self) -> Result<Tree, Stop>
        ensures { Gave condition_of result self.new.rest.now (condition_at self.old.rest.now) }
    {
        self.any(self.rest.len() + 1)
    }

    #[cycle(nesting)]
    #[tactic(auto, unfolding(crate::specs::Reading::any_at, crate::specs::Reading::disjuncts_at))]
    fn any(&mut self, depth: usize) -> Result<Tree, Stop>
        ensures { Gave condition_of result self.new.rest.now (any_at depth self.old.rest.now) }
    {
        let disjuncts = self.disjuncts(depth)?;
        Ok(any_of(disjuncts))
    }

    #[cycle(nesting)]
    #[tactic(auto, unfolding(crate::specs::Reading::disjuncts_at, crate::specs::Reading::all_at))]
    fn disjuncts(&mut self, depth: usize) -> Result<Vec<Tree>, Stop>
        ensures { Gave (λ trees. map condition_of trees.items) result self.new.rest.now
            (disjuncts_at depth self.old.rest.now) }
    {
        let mut trees = Vec::new(self.alloc);
        'members: loop {
            add_disjunct(&mut trees, self.all(depth)?)?;
            if !self.skip_keyword(Keyword::Or) {
                return Ok(trees);
            }
        }
    }

    #[cycle(nesting)]
    #[tactic(auto, unfolding(crate::specs::Reading::all_at, crate::specs::Reading::conjuncts_at))]
    fn all(&mut self, depth: usize) -> Result<Tree, Stop>
        ensures { Gave condition_of result self.new.rest.now (all_at depth self.old.rest.now) }
    {
        let conjuncts = self.conjuncts(depth)?;
        Ok(all_of(conjuncts))
    }

    #[cycle(nesting)]
    #[tactic(auto, unfolding(crate::specs::Reading::conjuncts_at))]
    fn conjuncts(&mut self, depth: usize) -> Result<Vec<Tree>, Stop>
        ensures { Gave (λ trees. map condition_of trees.items) result self.new.rest.now
            (conjuncts_at depth self.old.rest.now) }
    {
        let mut trees = Vec::new(self.alloc);
        'members: loop {
            add_conjunct(&mut trees, self.one(depth)?)?;
            if !self.skip_keyword(Keyword::And) {
                return Ok(trees);
            }
        }
    }

    /// A test, or what may hold another condition: `not` and parentheses, fewer than
    /// `depth` around each other.
    #[cycle(nesting)]
    #[tactic(auto, unfolding(crate::specs::Reading::one_at))]
    fn one(&mut self, depth: usize) -> Result<Tree, Stop>
        ensures { Gave condition_of result self.new.rest.now (one_at depth self.old.rest.now) }
    {
        let Some(inner) = depth.checked_sub(1) else {
            return Err(Stop::Unfit);
        };
        if self.skip_keyword(Keyword::Not) {
            self.negated(inner)
        } else {
            self.not_negated(inner)
        }
    }

    #[cycle(nesting)]
    fn not_negated(&mut self, depth: usize) -> Result<Tree, Stop>
        ensures { Gave condition_of result self.new.rest.now
            (not_negated_at depth self.old.rest.now) }
    {
        if self.skip_sign(Sign::Open) {
            self.closed(depth)
        } else {
            self.test()
        }
    }

    #[cycle(nesting)]
    fn negated(&mut self, depth: usize) -> Result<Tree, Stop>
        ensures { Gave condition_of result self.new.rest.now (negated_at depth self.old.rest.now) }
    {
        let plain = self.one(depth)?;
        Ok(Tree::Negate(Box::new(self.alloc, plain)?))
    }

    #[cycle(nesting)]
    #[tactic(auto, unfolding(crate::specs::Reading::any_at))]
    fn closed(&mut self, depth: usize) -> Result<Tree, Stop>
        ensures { Gave condition_of result self.new.rest.now (closed_at depth self.old.rest.now) }
    {
        let tree = self.any(depth)?;
        self.close(tree)
    }

    #[tactic(auto, unfolding(crate::specs::Reading::compared_at))]
    fn compared(&mut self, column: Column, how: Relation) -> Result<Tree, Stop>
        ensures { Gave condition_of result self.new.rest.now
            (compared_at column how self.old.rest.now) }
    {
        let value = self.literal()?;
        Ok(Tree::Test { column, how, value })
    }

    #[tactic(auto, unfolding(crate::specs::Reading::equal_to_at))]
    fn equal_to(&mut self, left: Column) -> Result<Tree, Stop>
        ensures { Gave condition_of result self.new.rest.now (equal_to_at left self.old.rest.now) }
    {
        if self.at_literal() {
            self.compared(left, Relation::Eq)
        } else {
            let right = self.column()?;
            Ok(Tree::Same { left, right })
        }
    }

    #[tactic(auto, unfolding(crate::specs::Reading::between_at))]
    fn between(&mut self, column: Column) -> Result<Tree, Stop>
        ensures { Gave condition_of result self.new.rest.now
            (between_at column self.old.rest.now) }
    {
        let low = self.literal()?;
        let high = self.upper_bound()?;
        Ok(Tree::Between { column, low, high })
    }

    #[tactic(auto, unfolding(crate::specs::Reading::upper_bound_at))]
    fn upper_bound(&mut self) -> Result<Value, Stop>
        ensures { Gave (λ value. value) result self.new.rest.now
            (upper_bound_at self.old.rest.now) }
    {
        self.keyword(Keyword::And)?;
        self.literal()
    }

    #[tactic(auto, unfolding(crate::specs::Reading::listed_at))]
    fn listed(&mut self, column: Column) -> Result<Tree, Stop>
        ensures { Gave condition_of result self.new.rest.now (listed_at column self.old.rest.now) }
    {
        let values = self.bracketed_literals()?;
        Ok(Tree::OneOf {
            column,
            values: LiteralList::from(values),
        })
    }

    #[tactic(auto, unfolding(crate::specs::Reading::bracketed_literals_at))]
    fn bracketed_literals(&mut self) -> Result<Vec<Value>, Stop>
        ensures { Gave (λ values. values.items) result self.new.rest.now
            (bracketed_literals_at self.old.rest.now) }
    {
        self.sign(Sign::Open)?;
        let values = self.literals()?;
        self.close(values)
    }

    #[tactic(auto, unfolding(crate::specs::Reading::ranged_at))]
    fn ranged(&mut self, column: Column) -> Result<Tree, Stop>
        ensures { Gave condition_of result self.new.rest.now (ranged_at column self.old.rest.now) }
    {
        if self.skip_keyword(Keyword::Between) {
            self.between(column)
        } else {
            self.keyword(Keyword::In)?;
            self.listed(column)
        }
    }

    #[tactic(auto, unfolding(crate::specs::Reading::not_ranged_at))]
    fn not_ranged(&mut self, column: Column) -> Result<Tree, Stop>
        ensures { Gave condition_of result self.new.rest.now
            (not_ranged_at column self.old.rest.now) }
    {
        let plain = self.ranged(column)?;
        Ok(Tree::Negate(Box::new(self.alloc, plain)?))
    }

    #[tactic(auto, unfolding(crate::specs::Reading::tested_at))]
    fn tested(&mut self, column: Column) -> Result<Tree, Stop>
        ensures { Gave condition_of result self.new.rest.now (tested_at column self.old.rest.now) }
    {
        if self.skip_sign(Sign::Equal) {
            self.equal_to(column)
        } else if self.skip_sign(Sign::NotEqual) {
            self.compared(column, Relation::Ne)
        } else {
            self.ordered(column)
        }
    }

    /// A comparison by order, or else what is no comparison.
    #[tactic(auto, unfolding(crate::specs::Reading::ordered_at))]
    fn ordered(&mut self, column: Column) -> Result<Tree, Stop>
        ensures { Gave condition_of result self.new.rest.now
            (ordered_at column self.old.rest.now) }
    {
        if self.skip_sign(Sign::Less) {
            self.compared(column, Relation::Lt)
        } else if self.skip_sign(Sign::LessOrEqual) {
            self.compared(column, Relation::Le)
        } else if self.skip_sign(Sign::Greater) {
            self.compared(column, Relation::Gt)
        } else if self.skip_sign(Sign::GreaterOrEqual) {
            self.compared(column, Relation::Ge)
        } else {
            self.ranged_test(column)
        }
    }

    #[tactic(auto, unfolding(crate::specs::Reading::ranged_test_at))]
    fn ranged_test(&mut self, column: Column) -> Result<Tree, Stop>
        ensures { Gave condition_of result self.new.rest.now
            (ranged_test_at column self.old.rest.now) }
    {
        if self.skip_keyword(Keyword::Not) {
            self.not_ranged(column)
        } else {
            self.ranged(column)
        }
    }

    #[tactic(auto, unfolding(crate::specs::Reading::test_at))]
    fn test(&mut self) -> Result<Tree, Stop>
        ensures { Gave condition_of result self.new.rest.now (test_at self.old.rest.now) }
    {
        let column = self.column()?;
        self.tested(column)
    }
}

/// Takes in a conjunct. An `and` hands on its members.
fn add_conjunct(members: &mut Vec<Tree>, tree: Tree) -> Result<(), NoMemory>
    ensures { OnOk result (map condition_of members.new.items
        ≡ map condition_of members.old.items ++ conjuncts (condition_of tree)) }
{
    match tree {
        Tree::Both(mut list) => members.append(&mut list.members)?,
        single => members.push(single)?,
    }
    Ok(())
}

/// Takes in a disjunct. An `or` hands on its members.
fn add_disjunct(members: &mut Vec<Tree>, tree: Tree) -> Result<(), NoMemory>
    ensures { OnOk result (map condition_of members.new.items
        ≡ map condition_of members.old.items ++ disjuncts (condition_of tree)) }
{
    match tree {
        Tree::Either(mut list) => members.append(&mut list.members)?,
        single => members.push(single)?,
    }
    Ok(())
}

fn conjunction(members: Vec<Tree>) -> Tree
    ensures { condition_of result ≡ plain.Both (conditions (map condition_of members.items)) }
{
    Tree::Both(TreeList { members })
}

/// One conjunct alone stands for itself.
fn all_of(mut members: Vec<Tree>) -> Tree
    ensures { condition_of result ≡ alone_or plain.Both (map condition_of members.items) }
{
    if members.len() == 1 {
        members.remove(0)
    } else {
        conjunction(members)
    }
}

fn disjunction(members: Vec<Tree>) -> Tree
    ensures { condition_of result ≡ plain.Either (conditions (map condition_of members.items)) }
{
    Tree::Either(TreeList { members })
}

/// One disjunct alone stands for itself.
fn any_of(mut members: Vec<Tree>) -> Tree
    ensures { condition_of result ≡ alone_or plain.Either (map condition_of members.items) }
{
    if members.len() == 1 {
        members.remove(0)
    } else {
        disjunction(members)
    }
}
