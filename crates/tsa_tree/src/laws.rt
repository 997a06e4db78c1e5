//! What holds of the grammar.

ghost use Rattle.tsa_tree.specs.expressions.Laws.{SpellTheSame, BeginTheSame, OneTree, PiecesBegin, OneAnswer};
ghost use Rattle.tsa_tree.specs.expressions.Examples.{ProductionsAreRead};
ghost use Rattle.tsa_tree.specs.attributes.Answers as attributes;
ghost use Rattle.tsa_tree.specs.attributes.Examples.{AttributesAreRead};
ghost use Rattle.tsa_tree.specs.declarations.Answers as declarations;
ghost use Rattle.tsa_tree.specs.statements.Laws as statements;
ghost use Rattle.tsa_tree.specs.statements.Examples.{StatementsAreRead};
ghost use Rattle.tsa_tree.specs.units.Answers as units;
ghost use Rattle.tsa_tree.specs.units.SoundLaw.{WellReadIsSound, SoundIsSpellable, WellReadIsSpellable, SpellableTogether};
ghost use Rattle.tsa_tree.specs.points.Examples.{PointsAreInOrder};
ghost use Rattle.tsa_tree.specs.units.Examples.{UnitsAreRead};
ghost use Rattle.tsa_tree.specs.units.Names.{NamesStandApart};
ghost use Rattle.tsa_tree.specs.units.Spans.{SpansLieInText};
ghost use Rattle.tsa_tree.specs.units.Order.{NodesRise};
ghost use Rattle.tsa_tree.specs.declarations.Examples.{DeclarationsAreRead};
ghost use Rattle.tsa_tree.specs.types.FirstFailing.{FirstFailingIsFirst, PremisesTellIt};
ghost use Rattle.tsa_tree.specs.types.RunnableExamples.{UnitsRun};
ghost use Rattle.tsa_tree.specs.types.UnitExamples.{UnitsAreTyped};

/// The rows that readers go by spell the same trees as the productions of the grammar, and the same lists begin them.
pub fn rows_are_productions()
    ensures spelled { SpellTheSame }
    ensures begun { BeginTheSame }
{}

/// Two trees that the same tokens spell are equal.
pub fn one_tree_is_spelled()
    ensures { OneTree }
{}

/// Every first piece of the tokens that spell an expression begins one.
pub fn first_pieces_begin()
    ensures { PiecesBegin }
{}

/// For every list of tokens and place, exactly one answer is right: the tree of the longest list that begins an
/// expression, the token after it, or the first token that passes a limit.
pub fn one_answer_is_right()
    ensures { OneAnswer }
{}

/// Expressions are read as they are written: a text for each production, and one for each kind of refusal.
pub fn expressions_are_as_written()
    ensures { ProductionsAreRead }
{}

/// The rows of attributes spell the same lists as the productions, the same tokens begin them, and the same attributes are
/// refused where they stand.
#[tactic(auto, using(crate::proofs::attributes::Laws::spell_the_same, crate::proofs::attributes::Laws::begin_the_same, crate::proofs::attributes::Laws::refuse_the_same))]
pub fn rows_of_attributes_are_productions()
    ensures spelled { attributes.SpellTheSame }
    ensures begun { attributes.BeginTheSame }
    ensures refused { attributes.RefuseTheSame }
{}

/// Two lists of attributes that the same tokens spell are equal.
#[tactic(auto, using(crate::proofs::attributes::Laws::one_list))]
pub fn one_list_of_attributes_is_spelled()
    ensures { attributes.OneList }
{}

/// Every first piece of the tokens that spell attributes begins them.
#[tactic(auto, using(crate::proofs::attributes::Laws::pieces_begin))]
pub fn first_pieces_begin_attributes()
    ensures { attributes.PiecesBegin }
{}

/// For every list of tokens and place there is a right answer of a reader of attributes, and only one.
#[tactic(auto, using(crate::proofs::attributes::Laws::an_answer, crate::proofs::attributes::Laws::one_answer))]
pub fn attributes_have_an_answer()
    ensures right { attributes.AnAnswer }
    ensures one { attributes.OneAnswer }
{}

/// Attributes are read as they are written: texts of each form, and of each kind of refusal.
#[tactic(auto, using(crate::proofs::attributes::Examples::attributes_are_read))]
pub fn attributes_are_as_written()
    ensures { AttributesAreRead }
{}

/// The rows of items, heads and locals spell what the productions spell, and so do the rows of types.
pub fn rows_of_declarations_are_productions()
    ensures spelled { declarations.SpellTheSame }
    ensures types { declarations.TypesSpellTheSame }
{}

/// Two items, heads or locals that the same tokens spell are equal: items wherever they end, the others to the last token.
#[tactic(auto, using(crate::proofs::declarations::Laws::one_spelled, crate::proofs::declarations::Laws::one_item))]
pub fn one_declaration_is_spelled()
    ensures one { declarations.OneSpelled }
    ensures items { declarations.OneItem }
{}

/// Every first piece of the tokens that spell an item, a head or locals begins them.
pub fn first_pieces_begin_declarations()
    ensures { declarations.PiecesBegin }
{}

/// For every list of tokens and place there is a right answer of a reader of an item, a head or locals, and only one.
#[tactic(auto, using(crate::proofs::declarations::Laws::an_answer, crate::proofs::declarations::Laws::one_answer))]
pub fn declarations_have_an_answer()
    ensures right { declarations.AnAnswer }
    ensures one { declarations.OneAnswer }
{}

/// Items, heads and locals are read as they are written: a text for each production, and one for each kind of refusal.
#[tactic(auto, using(crate::proofs::declarations::Examples::declarations_are_read))]
pub fn declarations_are_as_written()
    ensures { DeclarationsAreRead }
{}

/// The rows of statements spell what the productions spell, each `else` with the nearest `if` that the grammar allows.
pub fn rows_of_statements_are_productions()
    ensures { statements.SpellTheSame }
{}

/// Two statements that the same tokens spell are equal.
#[tactic(auto, using(crate::proofs::statements::Laws::one_statement))]
pub fn one_statement_is_spelled()
    ensures { statements.OneStatement }
{}

/// Every first piece of the tokens that spell a statement begins one.
pub fn first_pieces_begin_statements()
    ensures { statements.PiecesBegin }
{}

/// Statements are read as they are written: a text for each production, and one for each kind of refusal.
#[tactic(auto, using(crate::proofs::statements::Examples::statements_are_read))]
pub fn statements_are_as_written()
    ensures { StatementsAreRead }
{}

/// The rows of whole units spell what the productions spell, to the last token.
#[tactic(auto, using(crate::proofs::units::Laws::spell_the_same))]
pub fn rows_of_units_are_productions()
    ensures { units.SpellTheSame }
{}

/// Two units that the same tokens spell are equal.
#[tactic(auto, using(crate::proofs::units::Laws::one_unit))]
pub fn one_unit_is_spelled()
    ensures { units.OneUnit }
{}

/// Every first piece of the tokens that spell a unit begins one.
pub fn first_pieces_begin_units()
    ensures { units.PiecesBegin }
{}

/// Where a token is refused, and not since a limit is passed, the tokens spell no unit.
pub fn what_is_refused_is_no_unit()
    ensures { units.RefusedIsNoUnit }
{}

/// For every list of tokens there is a right answer of a reader of units, and only one.
#[tactic(auto, using(crate::proofs::units::Laws::an_answer, crate::proofs::units::Laws::one_answer))]
pub fn units_have_an_answer()
    ensures right { units.AnAnswer }
    ensures one { units.OneAnswer }
{}

/// The names of a well-read unit are names, and its numbers fit their types.
#[tactic(auto, using(crate::proofs::units::Read::well_read_sound))]
pub fn what_is_well_read_is_sound()
    ensures { WellReadIsSound }
{}

/// What is sound can be spelled whatever is the name of a type, and so can what is well read, and the items of several
/// texts as one list.
#[tactic(auto, using(crate::proofs::units::MoreWords::sound_is_spellable, crate::proofs::units::MoreWords::well_read_spellable, crate::proofs::units::MoreWords::spellable_together))]
pub fn what_is_sound_can_be_spelled()
    ensures sound { SoundIsSpellable }
    ensures well_read { WellReadIsSpellable }
    ensures together { SpellableTogether }
{}

/// No two names that a unit declares or uses begin at the same byte of the text that it is read from.
pub fn names_stand_apart()
    ensures { NamesStandApart }
{}

/// The span of each node and each name of a unit goes forwards, and lies in the text that the unit is read from.
pub fn spans_lie_in_text()
    ensures { SpansLieInText }
{}

/// The nodes of a unit, each before its parts and all in the order of the text, have rising places, and so have the attributes of each
/// struct.
pub fn nodes_rise()
    ensures { NodesRise }
{}

/// Units are read as they are written: a text for each production, and one for each kind of refusal.
#[tactic(auto, using(crate::proofs::units::Examples::units_are_read))]
pub fn units_are_as_written()
    ensures { UnitsAreRead }
{}

/// The points of statements come in order of the text, and stand where they are written.
#[tactic(auto, using(crate::proofs::points::Examples::points_are_in_order))]
pub fn points_are_as_written()
    ensures { PointsAreInOrder }
{}

/// The node of a unit that is told is the first one that fails a premise of types, with the smallest code that fails there; and
/// the premises in order, by which the code goes, tell the same.
#[tactic(auto, using(crate::proofs::types::FirstNodes::first_failing_is_first, crate::proofs::types::UnitNodes::premises_tell_it))]
pub fn the_first_failing_node_is_told()
    ensures first { FirstFailingIsFirst }
    ensures premises { PremisesTellIt }
{}

/// Units of each kind are typed, or refused where a premise fails, as they are written.
#[tactic(auto, using(crate::proofs::types::UnitExamples::units_are_typed))]
pub fn types_are_as_written()
    ensures { UnitsAreTyped }
{}

/// Units are run by the machine, or aren't, as what stands beside them.
#[tactic(auto, using(crate::proofs::types::RunnableExamples::units_run))]
pub fn what_runs_is_as_written()
    ensures { UnitsRun }
{}
