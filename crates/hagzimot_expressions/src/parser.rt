//! From tokens to a tree.
ghost use Rattle.std.specs.Prelude.{IfOk};
ghost use Rattle.hagzimot_expressions.specs.Numbers.{NumbersRead};

use crate::lexemes::{Token, TokenKind};
use crate::mistakes::{ExpressionFault, Wrong, mistake_at};
use crate::paths::path_of;
use crate::quoted::quoted_text;
use crate::tree::{Operator, Path, Span, Test, Tree, Word};
use std::alloc::Global;

/// The most parentheses and nots that are nested.
pub(crate) const MOST_LEVELS: u32 = 64;

/// The most conditions of an expression.
const MOST_TESTS: usize = 1000;

/// The tokens of a text from a place on, and the conditions that were read.
#[derive(Drop)]
pub(crate) struct Parser<'a> {
    pub alloc: Global,
    pub text: &'a str,
    pub tokens: &'a [Token],
    pub at: usize,
    pub tests: Vec<Test>,
}

impl<'a> Parser<'a> {
    ghost use Rattle.std.specs.Prelude.{◌≡◌, IfOk};
    ghost use Rattle.hagzimot_expressions.specs.Numbers.{NumbersRead};

    /// Returns how many tokens are left.
    fn left(&self) -> usize {
        self.tokens.len().saturating_sub(self.at)
    }

    /// Returns the next token.
    pub(crate) fn next(&self) -> Option<Token> {
        self.tokens.get(self.at).copied()
    }

    /// Returns the token after the next.
    fn second(&self) -> Option<Token> {
        self.tokens.get(self.at.saturating_add(1)).copied()
    }

    /// Passes the next token.
    fn advance(&mut self)
        ensures { self.new.tests ≡ self.old.tests }
    {
        self.at = self.at.saturating_add(1);
    }

    /// Returns the place of the next token, or that of the end of the text if none is left.
    fn here(&self) -> Span {
        match self.next() {
            Some(token) => token.span,
            None => Span {
                start: self.text.len(),
                end: self.text.len(),
            },
        }
    }

    /// Returns a mistake at the next token.
    fn wrong(&self, wrong: Wrong) -> ExpressionFault {
        mistake_at(self.here(), wrong)
    }

    /// Returns the characters of a token.
    fn part(&self, span: Span) -> &'a str {
        self.text.get(span.start..span.end).unwrap_or("")
    }

    /// Returns whether the next token is a word with this text.
    fn is_word(&self, word: &str) -> bool {
        match self.next() {
            Some(token) => token.kind == TokenKind::Word && self.part(token.span) == word,
            None => false,
        }
    }

    /// Passes the next token if it is such a word, and returns whether it is.
    fn take_word(&mut self, word: &str) -> bool
        ensures { self.new.tests ≡ self.old.tests }
    {
        let is_word = self.is_word(word);
        if is_word {
            self.advance();
        }
        is_word
    }

    /// Returns whether the next token is the path of a condition, and not a word such as `not`: an
    /// operator follows, or `is`.
    fn is_path(&self) -> bool {
        match self.second() {
            Some(
                Token {
                    kind: TokenKind::Operator(_),
                    span: _,
                },
            ) => true,
            Some(
                Token {
                    kind: TokenKind::Word,
                    span,
                },
            ) => self.part(span) == "is",
            _ => false,
        }
    }

    /// Returns whether an operator follows the next token.
    fn is_compared(&self) -> bool {
        match self.second() {
            Some(token) => matches!(token.kind, TokenKind::Operator(_)),
            None => false,
        }
    }

    /// Returns the path that is next, which is passed.
    fn path(&mut self, missing: Wrong) -> Result<Path, ExpressionFault>
        ensures { self.new.tests ≡ self.old.tests }
    {
        match self.next() {
            Some(
                Token {
                    kind: TokenKind::Word,
                    span,
                },
            ) => {
                self.advance();
                path_of(self.alloc, self.part(span), span)
            }
            Some(
                Token {
                    kind: TokenKind::Quoted,
                    span,
                },
            ) => Err(mistake_at(span, Wrong::QuotedPath)),
            _ => Err(self.wrong(missing)),
        }
    }

    /// Returns the value or the name that is next, which is passed.
    fn word(&mut self, missing: Wrong) -> Result<Word, ExpressionFault>
        ensures { self.new.tests ≡ self.old.tests }
    {
        let (text, span) = match self.next() {
            Some(
                Token {
                    kind: TokenKind::Word,
                    span,
                },
            ) => (String::from_str(self.alloc, self.part(span))?, span),
            Some(
                Token {
                    kind: TokenKind::Quoted,
                    span,
                },
            ) => (quoted_text(self.alloc, self.text, span)?, span),
            _ => return Err(self.wrong(missing)),
        };
        self.advance();
        Ok(Word { text, span })
    }

    /// Returns the operator that is next, which is passed.
    fn operator(&mut self) -> Option<(Operator, Span)>
        ensures { self.new.tests ≡ self.old.tests }
    {
        match self.next() {
            Some(
                Token {
                    kind: TokenKind::Operator(operator),
                    span,
                },
            ) => {
                self.advance();
                Some((operator, span))
            }
            _ => None,
        }
    }

    /// Returns the condition that is next.
    fn test(&mut self) -> Result<Test, ExpressionFault>
        ensures { self.new.tests ≡ self.old.tests }
    {
        if !self.is_path() && self.take_word("has") {
            return Ok(Test::Has(self.path(Wrong::NoPath)?));
        }
        if !self.is_path() && self.is_word("is") {
            let span = self.here();
            self.advance();
            let path = Path {
                steps: Vec::new(self.alloc),
                span,
            };
            let member = self.word(Wrong::NoMember)?;
            return Ok(Test::Is { path, member });
        }
        let path = self.path(Wrong::NoTest)?;
        if let Some((operator, operator_span)) = self.operator() {
            let value = self.word(Wrong::NoValue)?;
            return Ok(Test::Compares {
                path,
                operator,
                operator_span,
                value,
            });
        }
        if self.take_word("is") {
            let member = self.word(Wrong::NoMember)?;
            return Ok(Test::Is { path, member });
        }
        Err(self.wrong(Wrong::NoOperator))
    }

    /// Reads the condition that is next, and returns its place in the tree.
    #[tactic(auto, unfolding(crate::specs::Numbers::NumbersFrom))]
    fn leaf(&mut self) -> Result<Tree, ExpressionFault>
        ensures { IfOk result (NumbersRead self.old self.new) }
    {
        let number = self.tests.len();
        if number >= MOST_TESTS {
            return Err(self.wrong(Wrong::TooMany));
        }
        let test = self.test()?;
        self.tests.push(test)?;
        Ok(Tree::Test(number))
    }

    /// Returns a mistake at the next token, which doesn't continue what was read.
    fn behind(&self) -> ExpressionFault {
        let Some(token) = self.next() else {
            return self.wrong(Wrong::NoTest);
        };
        if token.kind == TokenKind::Close {
            return self.wrong(Wrong::NotOpen);
        }
        let part = self.part(token.span);
        if matches!(part, "&&" | "&" | "AND" | "And") {
            return self.wrong(Wrong::AndWord);
        }
        if matches!(part, "||" | "|" | "OR" | "Or") {
            return self.wrong(Wrong::OrWord);
        }
        self.wrong(Wrong::Behind)
    }

    /// Checks that nothing is left.
    pub(crate) fn finish(&self) -> Result<(), ExpressionFault> {
        if self.left() == 0 {
            return Ok(());
        }
        Err(self.behind())
    }

    /// Passes the closing parenthesis of one that was opened at a place.
    fn close(&mut self, open: Span) -> Result<(), ExpressionFault>
        ensures { self.new.tests ≡ self.old.tests }
    {
        match self.next() {
            Some(
                Token {
                    kind: TokenKind::Close,
                    span: _,
                },
            ) => {
                self.advance();
                Ok(())
            }
            Some(_) => Err(self.behind()),
            None => Err(mistake_at(open, Wrong::NotClosed)),
        }
    }
}

/// Reads a condition, one after `not`, or an expression in parentheses.
#[cycle(expressions)]
#[tactic(auto, unfolding(crate::specs::Numbers::NumbersFrom))]
fn single(parser: &mut Parser<'_>, levels: u32) -> Result<Tree, ExpressionFault>
    ensures { IfOk result (NumbersRead parser.old parser.new) }
{
    if levels == 0 {
        return Err(parser.wrong(Wrong::TooDeep));
    }
    let alloc = parser.alloc;
    if !parser.is_compared() && parser.take_word("not") {
        let inner = single(parser, levels - 1)?;
        return Ok(Tree::Not(Box::new(alloc, inner)?));
    }
    match parser.next() {
        Some(
            Token {
                kind: TokenKind::Open,
                span,
            },
        ) => {
            parser.advance();
            let inner = alternatives(parser, levels - 1)?;
            parser.close(span)?;
            Ok(inner)
        }
        _ => parser.leaf(),
    }
}

/// Reads what is joined by `and`.
#[cycle(expressions)]
#[tactic(auto, unfolding(crate::specs::Numbers::NumbersFrom))]
fn conjunction(parser: &mut Parser<'_>, levels: u32) -> Result<Tree, ExpressionFault>
    ensures { IfOk result (NumbersRead parser.old parser.new) }
{
    let alloc = parser.alloc;
    let mut tree = single(parser, levels)?;
    for _ in 0..parser.left() {
        if !parser.take_word("and") {
            return Ok(tree);
        }
        let right = single(parser, levels)?;
        tree = Tree::And(Box::new(alloc, tree)?, Box::new(alloc, right)?);
    }
    Ok(tree)
}

/// Reads what is joined by `or`.
#[cycle(expressions)]
#[tactic(auto, unfolding(crate::specs::Numbers::NumbersFrom))]
pub(crate) fn alternatives(parser: &mut Parser<'_>, levels: u32) -> Result<Tree, ExpressionFault>
    ensures { IfOk result (NumbersRead parser.old parser.new) }
{
    let alloc = parser.alloc;
    let mut tree = conjunction(parser, levels)?;
    for _ in 0..parser.left() {
        if !parser.take_word("or") {
            return Ok(tree);
        }
        let right = conjunction(parser, levels)?;
        tree = Tree::Or(Box::new(alloc, tree)?, Box::new(alloc, right)?);
    }
    Ok(tree)
}
