// The checker's second pass: whether the words of a text form a module, read by their sorts from the first on. What is refused first is answered, by the rule
// that it breaks and the index of its word: no form, a word that no well-formed module could have there, or deep nesting, nesting 17.
#![tactic(auto)]

ghost use Rattle.std.specs.Prelude.{◌≡◌, suc, ◌<◌};
ghost use Rattle.layout.specs.declared.rules.Rule.TheVariants.{NoForm, DeepNesting};
ghost use Rattle.check_form.specs.Places.{Lent, breach, sorts_in, word, type_word, expression_in, expression, expressions, arguments, optional};
ghost use Rattle.check_form.specs.Places.{target, right_side, assigns, started_by_name, writing, wanting, simple_word, simple, step_part, for_head};
ghost use Rattle.check_form.specs.Places.{arm_end, case_end, list_end, if_head, test_head, opened, compound, list_below};
ghost use Rattle.check_form.specs.Places.{content, declaration, declarations, parameter, parameters, list_behind, routine_from, routine, routines, whole};
ghost use Rattle.check_form.specs.Places.{operand, behind_not, behind_sign};
ghost use Rattle.check_form.specs.Judged.{Judged};

use layout::limits::NESTINGS;
use layout::rules::{Breach, Rule};
use layout::{levels, parts};
use text_sorts::*;

// How far a compound statement is read.
#[derive(Clone, Copy)]
enum Part {
    // to its end
    Whole(usize),
    // into a list: what a word of that sort closes, or, with ELSEIF and CASE, an IF's or a TEST's which others may follow
    Inside(u32, usize),
}

// The words of a text as they lie in the code.
#[derive(Clone, Copy)]
struct Words<'a> {
    code: &'a [u8],
    count: usize,
    ghost lent: { Lent code.now count },
}

fn no_form(at: usize) -> Breach
    ensures { result ≡ breach NoForm at }
{
    Breach {
        rule: Rule::NoForm,
        word: at,
    }
}

fn deep_nesting(at: usize) -> Breach
    ensures { result ≡ breach DeepNesting at }
{
    Breach {
        rule: Rule::DeepNesting,
        word: at,
    }
}

// Whether that sort behind a name makes it a target.
#[tactic(auto, unfolding(crate::specs::Places::assigns))]
fn assigns(s: u32) -> bool
    ensures { result ≡ assigns s }
{
    matches!(s, BECOMES | OPEN_BRACE)
}

// Each reads from a place on, up to which place it answers. No range counts their loops: where the next reading begins is what the last one answers.
impl<'a> Words<'a> {
    ghost use Rattle.check_form.specs.Sorts.{sorts_of};

    // ---- words

    // The sort of a word, and NOTHING past the last one.
    fn sort(&self, at: usize) -> u32
        ensures value { result ≡ sorts_of self.now at }
        ensures within { 0 < result → at < self.now.count }
    {
        if at < self.count {
            return store_cells::get(self.code, 2 * at) % parts::VALUE;
        }
        NOTHING
    }

    // A word of that sort.
    #[tactic(auto, unfolding(crate::specs::Places::word))]
    fn expect(&self, at: usize, s: u32) -> Result<usize, Breach>
        requires { 0 < s }
        ensures { result ≡ word (sorts_of self.now) s at }
    {
        if self.sort(at) == s {
            return Ok(at + 1);
        }
        Err(no_form(at))
    }

    #[tactic(auto, unfolding(crate::specs::Places::type_word, paper::specs::Expressions::is_type))]
    fn expect_type(&self, at: usize) -> Result<usize, Breach>
        ensures { result ≡ type_word (sorts_of self.now) at }
    {
        match self.sort(at) {
            NUM | BOOL => Ok(at + 1),
            _ => Err(no_form(at)),
        }
    }

    // ---- expressions

    #[tactic(auto, unfolding(crate::specs::Places::behind_not))]
    fn behind_not(&self, at: usize) -> usize
        ensures { result ≡ behind_not (sorts_of self.now) at }
    {
        if self.sort(at) == NOT {
            return at + 1;
        }
        at
    }

    #[tactic(auto, unfolding(crate::specs::Places::behind_sign))]
    fn behind_sign(&self, at: usize) -> usize
        ensures { result ≡ behind_sign (sorts_of self.now) at }
    {
        match self.sort(at) {
            PLUS | MINUS_SIGN => at + 1,
            _ => at,
        }
    }

    // An operand. Where it has parentheses or braces, of which `nesting` more may open, an expression is read inside.
    #[cycle(expression_operand)]
    #[tactic(auto, unfolding(crate::specs::Places::operand, paper::specs::Expressions::is_literal), using(crate::proofs::Reading::steps))]
    fn operand(&self, at: usize, nesting: usize) -> Result<usize, Breach>
        ensures { result ≡ operand (sorts_of self.now) (expression_in (sorts_of self.now) nesting) at }
    {
        match self.sort(at) {
            NAME => {
                if self.sort(at + 1) != OPEN_BRACE {
                    return Ok(at + 1);
                }
                if nesting == 0 {
                    return Err(deep_nesting(at + 1));
                }
                let n = self.expression(at + 2, nesting - 1)?;
                self.expect(n, CLOSE_BRACE)
            }
            OPEN_PAREN => {
                if nesting == 0 {
                    return Err(deep_nesting(at));
                }
                let n = self.expression(at + 1, nesting - 1)?;
                self.expect(n, CLOSE_PAREN)
            }
            NUMBER | TRUE | FALSE => Ok(at + 1),
            _ => Err(no_form(at)),
        }
    }

    // Operands and operators in turn. An operator's level says what may follow: NOT only at the beginning, a sign there and behind a relation, AND, OR and XOR,
    // and a second relation only behind the next of these three.
    #[cycle(expression_operand)]
    fn expression(&self, at: usize, nesting: usize) -> Result<usize, Breach>
        ensures { result ≡ expression_in (sorts_of self.now) (suc nesting) at }
    {
        let mut n = self.behind_sign(self.behind_not(at));
        let mut related = false;
        loop {
            let m = self.operand(n, nesting)?;
            let k = level_of(self.sort(m));
            if k == levels::NONE {
                return Ok(m);
            }
            if k < levels::RELATIONS {
                n = m + 1;
                continue;
            }
            if k == levels::RELATIONS {
                if related {
                    return Ok(m);
                }
                n = self.behind_sign(m + 1);
                related = true;
                continue;
            }
            n = self.behind_sign(m + 1);
            related = false;
        }
    }

    // One or more expressions, with commas between.
    fn expressions(&self, at: usize) -> Result<usize, Breach>
        ensures { result ≡ expressions (sorts_of self.now) at }
    {
        let mut n = at;
        loop {
            let m = self.expression(n, NESTINGS)?;
            if self.sort(m) != COMMA {
                return Ok(m);
            }
            n = m + 1;
        }
    }

    // None where the closing word follows at once.
    #[tactic(auto, unfolding(crate::specs::Places::arguments), using(crate::proofs::Reading::steps))]
    fn arguments(&self, at: usize, closing: u32) -> Result<usize, Breach>
        ensures { result ≡ arguments (sorts_of self.now) closing at }
    {
        if self.sort(at) == closing {
            return Ok(at);
        }
        self.expressions(at)
    }

    // ---- simple statements

    #[tactic(auto, unfolding(crate::specs::Places::target), using(crate::proofs::Reading::steps))]
    fn target(&self, at: usize) -> Result<usize, Breach>
        ensures { result ≡ target (sorts_of self.now) at }
    {
        if self.sort(at) != NAME {
            return Err(no_form(at));
        }
        if self.sort(at + 1) != OPEN_BRACE {
            return Ok(at + 1);
        }
        let n = self.expression(at + 2, NESTINGS - 1)?;
        self.expect(n, CLOSE_BRACE)
    }

    // A call where a name and a parenthesis stand, else an expression.
    #[tactic(auto, unfolding(crate::specs::Places::right_side), using(crate::proofs::Reading::steps))]
    fn right_side(&self, at: usize) -> Result<usize, Breach>
        ensures { result ≡ right_side (sorts_of self.now) at }
    {
        if self.sort(at) != NAME {
            return self.expression(at, NESTINGS);
        }
        if self.sort(at + 1) != OPEN_PAREN {
            return self.expression(at, NESTINGS);
        }
        let n = self.arguments(at + 2, CLOSE_PAREN)?;
        self.expect(n, CLOSE_PAREN)
    }

    // What a name starts: an assignment or a procedure's call. `at` is the place of the name.
    #[tactic(auto, unfolding(crate::specs::Places::started_by_name), using(crate::proofs::Reading::steps))]
    fn by_name(&self, at: usize) -> Result<usize, Breach>
        requires { at < self.now.count }
        ensures { result ≡ started_by_name (sorts_of self.now) at }
    {
        if assigns(self.sort(at + 1)) {
            let n = self.target(at)?;
            let n = self.expect(n, BECOMES)?;
            return self.right_side(n);
        }
        self.arguments(at + 1, SEMICOLON)
    }

    // An expression, or none where a semicolon follows at once.
    #[tactic(auto, unfolding(crate::specs::Places::optional), using(crate::proofs::Reading::steps))]
    fn optional(&self, at: usize) -> Result<usize, Breach>
        ensures { result ≡ optional (sorts_of self.now) at }
    {
        if self.sort(at) == SEMICOLON {
            return Ok(at);
        }
        self.expression(at, NESTINGS)
    }

    // What TPWrite writes.
    #[tactic(auto, unfolding(crate::specs::Places::writing, crate::specs::Places::number), using(crate::proofs::Reading::steps))]
    fn written(&self, at: usize) -> Result<usize, Breach>
        ensures { result ≡ writing (sorts_of self.now) at }
    {
        let n = self.expect(at, STRING)?;
        if self.sort(n) != BACKSLASH {
            return Ok(n);
        }
        let n = self.expect(n + 1, NUM)?;
        let n = self.expect(n, BECOMES)?;
        self.expression(n, NESTINGS)
    }

    // What TPReadNum reads into, and its text.
    #[tactic(auto, unfolding(crate::specs::Places::wanting), using(crate::proofs::Reading::steps))]
    fn wanted(&self, at: usize) -> Result<usize, Breach>
        ensures { result ≡ wanting (sorts_of self.now) at }
    {
        let n = self.target(at)?;
        let n = self.expect(n, COMMA)?;
        self.expect(n, STRING)
    }

    // A simple statement up to its semicolon.
    #[tactic(auto, unfolding(crate::specs::Places::simple_word), using(crate::proofs::Reading::steps))]
    fn simple_word(&self, at: usize) -> Result<usize, Breach>
        ensures { result ≡ simple_word (sorts_of self.now) at }
    {
        match self.sort(at) {
            NAME => self.by_name(at),
            RETURN | RAISE => self.optional(at + 1),
            EXIT | RETRY | TRYNEXT => Ok(at + 1),
            TPWRITE => self.written(at + 1),
            TPREADNUM => self.wanted(at + 1),
            _ => Err(no_form(at)),
        }
    }

    #[tactic(auto, unfolding(crate::specs::Places::simple), using(crate::proofs::Reading::steps))]
    fn simple(&self, at: usize) -> Result<usize, Breach>
        ensures { result ≡ simple (sorts_of self.now) at }
    {
        let n = self.simple_word(at)?;
        self.expect(n, SEMICOLON)
    }

    // ---- compound statements

    // STEP and an expression, if it is there.
    #[tactic(auto, unfolding(crate::specs::Places::step_part), using(crate::proofs::Reading::steps))]
    fn step(&self, at: usize) -> Result<usize, Breach>
        ensures { result ≡ step_part (sorts_of self.now) at }
    {
        if self.sort(at) != STEP {
            return Ok(at);
        }
        self.expression(at + 1, NESTINGS)
    }

    // What stands after an arm of an IF.
    #[tactic(auto, unfolding(crate::specs::Places::arm_end), using(crate::proofs::Reading::steps))]
    fn arm_end(&self, at: usize) -> Result<Part, Breach>
        ensures { result ≡ arm_end (sorts_of self.now) at }
    {
        match self.sort(at) {
            ELSEIF => {
                let n = self.expression(at + 1, NESTINGS)?;
                let n = self.expect(n, THEN)?;
                Ok(Part::Inside(ELSEIF, n))
            }
            ELSE => Ok(Part::Inside(ENDIF, at + 1)),
            _ => {
                let n = self.expect(at, ENDIF)?;
                Ok(Part::Whole(n))
            }
        }
    }

    // What stands after a TEST's selector, or after a case of it.
    #[tactic(auto, unfolding(crate::specs::Places::case_end), using(crate::proofs::Reading::steps))]
    fn case_end(&self, at: usize) -> Result<Part, Breach>
        ensures { result ≡ case_end (sorts_of self.now) at }
    {
        match self.sort(at) {
            CASE => {
                let n = self.expressions(at + 1)?;
                let n = self.expect(n, COLON)?;
                Ok(Part::Inside(CASE, n))
            }
            DEFAULT => {
                let n = self.expect(at + 1, COLON)?;
                Ok(Part::Inside(ENDTEST, n))
            }
            _ => {
                let n = self.expect(at, ENDTEST)?;
                Ok(Part::Whole(n))
            }
        }
    }

    // What stands after a list. Out of line, as `open`.
    #[tactic(auto, unfolding(crate::specs::Places::list_end), using(crate::proofs::Reading::steps))]
    #[inline(never)]
    fn list_end(&self, at: usize, closing: u32) -> Result<Part, Breach>
        requires { 0 < closing }
        ensures { result ≡ list_end (sorts_of self.now) closing at }
    {
        match closing {
            ELSEIF => self.arm_end(at),
            CASE => self.case_end(at),
            _ => {
                let n = self.expect(at, closing)?;
                Ok(Part::Whole(n))
            }
        }
    }

    // From behind FOR to the list.
    #[tactic(auto, unfolding(crate::specs::Places::for_head), using(crate::proofs::Reading::steps))]
    fn for_head(&self, at: usize) -> Result<usize, Breach>
        ensures { result ≡ for_head (sorts_of self.now) at }
    {
        let n = self.expect(at, NAME)?;
        let n = self.expect(n, FROM)?;
        let n = self.expression(n, NESTINGS)?;
        let n = self.expect(n, TO)?;
        let n = self.expression(n, NESTINGS)?;
        let n = self.step(n)?;
        self.expect(n, DO)
    }

    // From behind IF to the list, unless it would be the 17th, or to the end of a compact IF.
    #[tactic(auto, unfolding(crate::specs::Places::if_head, crate::specs::Places::condition), using(crate::proofs::Reading::steps))]
    fn if_head(&self, at: usize, deeper: usize) -> Result<Part, Breach>
        ensures { result ≡ if_head (sorts_of self.now) deeper at }
    {
        let n = self.expression(at, NESTINGS)?;
        if self.sort(n) != THEN {
            let n = self.simple(n)?;
            return Ok(Part::Whole(n));
        }
        if deeper == 0 {
            return Err(deep_nesting(n));
        }
        Ok(Part::Inside(ELSEIF, n + 1))
    }

    // From behind TEST to the first list.
    #[tactic(auto, unfolding(crate::specs::Places::test_head), using(crate::proofs::Reading::steps))]
    fn test_head(&self, at: usize) -> Result<Part, Breach>
        ensures { result ≡ test_head (sorts_of self.now) at }
    {
        let n = self.expression(at, NESTINGS)?;
        self.case_end(n)
    }

    // The compound statement at a place, up to its first list. Out of line, so that the frame of a list, which nests, has no room for its answers.
    #[tactic(auto, unfolding(crate::specs::Places::opened), using(crate::proofs::Reading::steps))]
    #[inline(never)]
    fn open(&self, at: usize, deeper: usize) -> Result<Part, Breach>
        requires { at < self.now.count }
        ensures { result ≡ opened (sorts_of self.now) deeper at }
    {
        let s = self.sort(at);
        if s == IF {
            return self.if_head(at + 1, deeper);
        }
        if deeper == 0 {
            return Err(deep_nesting(at));
        }
        match s {
            FOR => {
                let n = self.for_head(at + 1)?;
                Ok(Part::Inside(ENDFOR, n))
            }
            WHILE => {
                let n = self.expression(at + 1, NESTINGS)?;
                let n = self.expect(n, DO)?;
                Ok(Part::Inside(ENDWHILE, n))
            }
            _ => self.test_head(at + 1),
        }
    }

    // A compound statement: its lists, one after another. `deeper` more may nest.
    #[cycle(compound_list)]
    fn compound(&self, at: usize, deeper: usize) -> Result<usize, Breach>
        requires { at < self.now.count }
        ensures { result ≡ compound (sorts_of self.now) deeper at }
    {
        let mut part = self.open(at, deeper)?;
        loop {
            match part {
                Part::Whole(n) => return Ok(n),
                Part::Inside(closing, n) => {
                    let m = self.list(n, deeper - 1)?;
                    part = self.list_end(m, closing)?;
                }
            }
        }
    }

    // A list of statements ends before the first word that starts none.
    #[cycle(compound_list)]
    fn list(&self, at: usize, deeper: usize) -> Result<usize, Breach>
        ensures { result ≡ list_below (sorts_of self.now) (suc deeper) at }
    {
        let mut n = at;
        loop {
            let s = self.sort(n);
            if starts_compound(s) {
                n = self.compound(n, deeper)?;
                continue;
            }
            if starts_simple(s) {
                n = self.simple(n)?;
                continue;
            }
            return Ok(n);
        }
    }

    // ---- data

    // What stands after a declared name, where the declaration begins with a word of that sort.
    #[tactic(auto, unfolding(crate::specs::Places::content), using(crate::proofs::Reading::steps))]
    fn content(&self, at: usize, s: u32) -> Result<usize, Breach>
        ensures { result ≡ content (sorts_of self.now) s at }
    {
        let t = self.sort(at);
        if t == BECOMES {
            return self.expression(at + 1, NESTINGS);
        }
        if s != VAR {
            return Err(no_form(at));
        }
        if t != OPEN_BRACE {
            return Ok(at);
        }
        let n = self.expression(at + 1, NESTINGS)?;
        self.expect(n, CLOSE_BRACE)
    }

    // From behind VAR or CONST on.
    #[tactic(auto, unfolding(crate::specs::Places::declaration), using(crate::proofs::Reading::steps))]
    fn declaration(&self, at: usize, s: u32) -> Result<usize, Breach>
        ensures { result ≡ declaration (sorts_of self.now) s at }
    {
        let n = self.expect_type(at)?;
        let n = self.expect(n, NAME)?;
        let n = self.content(n, s)?;
        self.expect(n, SEMICOLON)
    }

    // Data, as many as there are.
    fn declarations(&self, at: usize) -> Result<usize, Breach>
        ensures { result ≡ declarations (sorts_of self.now) at }
    {
        let mut n = at;
        loop {
            let s = self.sort(n);
            if !starts_data(s) {
                return Ok(n);
            }
            n = self.declaration(n + 1, s)?;
        }
    }

    // ---- routines

    #[tactic(auto, unfolding(crate::specs::Places::parameter), using(crate::proofs::Reading::steps))]
    fn parameter(&self, at: usize) -> Result<usize, Breach>
        ensures { result ≡ parameter (sorts_of self.now) at }
    {
        let n = self.expect_type(at)?;
        self.expect(n, NAME)
    }

    // Parameters, with commas between, or none. The loop is that of `expressions` over another reading, as that of `routines` is that of `declarations`: one function of both would ask
    // in its contract for what the reading promises, which no clause here has to say now.
    fn parameters(&self, at: usize) -> Result<usize, Breach>
        ensures { result ≡ parameters (sorts_of self.now) at }
    {
        if self.sort(at) == CLOSE_PAREN {
            return Ok(at);
        }
        let mut n = at;
        loop {
            let m = self.parameter(n)?;
            if self.sort(m) != COMMA {
                return Ok(m);
            }
            n = m + 1;
        }
    }

    // The list behind a word of that sort, ERROR or UNDO, if any.
    #[tactic(auto, unfolding(crate::specs::Places::list_behind), using(crate::proofs::Reading::steps))]
    fn list_behind(&self, at: usize, s: u32) -> Result<usize, Breach>
        requires { 0 < s }
        ensures { result ≡ list_behind (sorts_of self.now) s at }
    {
        if self.sort(at) != s {
            return Ok(at);
        }
        self.list(at + 1, NESTINGS)
    }

    // A routine from its name on.
    #[tactic(auto, unfolding(crate::specs::Places::routine_from), using(crate::proofs::Reading::steps))]
    fn routine_from(&self, at: usize, closing: u32) -> Result<usize, Breach>
        requires { 0 < closing }
        ensures { result ≡ routine_from (sorts_of self.now) closing at }
    {
        let n = self.expect(at, NAME)?;
        let n = self.expect(n, OPEN_PAREN)?;
        let n = self.parameters(n)?;
        let n = self.expect(n, CLOSE_PAREN)?;
        let n = self.declarations(n)?;
        let n = self.list(n, NESTINGS)?;
        let n = self.list_behind(n, ERROR)?;
        let n = self.list_behind(n, UNDO)?;
        self.expect(n, closing)
    }

    // From behind PROC or FUNC on.
    #[tactic(auto, unfolding(crate::specs::Places::routine), using(crate::proofs::Reading::steps))]
    fn routine(&self, at: usize, s: u32) -> Result<usize, Breach>
        ensures { result ≡ routine (sorts_of self.now) s at }
    {
        if s == PROC {
            return self.routine_from(at, ENDPROC);
        }
        let n = self.expect_type(at)?;
        self.routine_from(n, ENDFUNC)
    }

    // Routines, as many as there are.
    fn routines(&self, at: usize) -> Result<usize, Breach>
        ensures { result ≡ routines (sorts_of self.now) at }
    {
        let mut n = at;
        loop {
            let s = self.sort(n);
            if !starts_routine(s) {
                return Ok(n);
            }
            n = self.routine(n + 1, s)?;
        }
    }

    // A module, up to behind its last word.
    #[tactic(auto, unfolding(crate::specs::Places::whole), using(crate::proofs::Reading::steps))]
    fn module(&self) -> Result<usize, Breach>
        ensures { result ≡ whole (sorts_of self.now) }
    {
        let n = self.expect(0, MODULE)?;
        let n = self.expect(n, NAME)?;
        let n = self.declarations(n)?;
        let n = self.routines(n)?;
        self.expect(n, ENDMODULE)
    }
}

pub fn form(code: &[u8], words: usize) -> Result<(), Breach>
    requires { Lent code.now words }
    ensures { Judged code.now words result }
{
    let w = Words { code, count: words };
    let n = w.module()?;
    if w.sort(n) == NOTHING {
        return Ok(());
    }
    Err(no_form(n))
}
