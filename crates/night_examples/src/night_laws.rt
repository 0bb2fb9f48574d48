ghost use Rattle.night_examples.specs.NightAcknowledgmentAskedFor.{Computes as AcknowledgmentAskedFor};
ghost use Rattle.night_examples.specs.NightAcknowledgmentsAskedForWithoutSets.{Computes as AcknowledgmentsAskedForWithoutSets};
ghost use Rattle.night_examples.specs.NightBytesOutside.{Computes as BytesOutside};
ghost use Rattle.night_examples.specs.NightControlNumberAndCountWrong.{Computes as ControlNumberAndCountWrong};
ghost use Rattle.night_examples.specs.NightCutOffResentAndSentAgain.{Computes as CutOffResentAndSentAgain};
ghost use Rattle.night_examples.specs.NightDateOfNoDigitsNotAnswered.{Computes as DateOfNoDigitsNotAnswered};
ghost use Rattle.night_examples.specs.NightEachInterchangeFault.{Computes as EachInterchangeFault};
ghost use Rattle.night_examples.specs.NightElementsWrong.{Computes as ElementsWrong};
ghost use Rattle.night_examples.specs.NightFirstBytes000.{Computes as FirstBytes000};
ghost use Rattle.night_examples.specs.NightFirstBytes001.{Computes as FirstBytes001};
ghost use Rattle.night_examples.specs.NightFirstBytes053.{Computes as FirstBytes053};
ghost use Rattle.night_examples.specs.NightFirstBytes105.{Computes as FirstBytes105};
ghost use Rattle.night_examples.specs.NightFirstBytes106.{Computes as FirstBytes106};
ghost use Rattle.night_examples.specs.NightFirstBytes107.{Computes as FirstBytes107};
ghost use Rattle.night_examples.specs.NightFirstBytes150.{Computes as FirstBytes150};
ghost use Rattle.night_examples.specs.NightFirstBytes200.{Computes as FirstBytes200};
ghost use Rattle.night_examples.specs.NightFirstBytes219.{Computes as FirstBytes219};
ghost use Rattle.night_examples.specs.NightFirstBytes220.{Computes as FirstBytes220};
ghost use Rattle.night_examples.specs.NightFirstBytes221.{Computes as FirstBytes221};
ghost use Rattle.night_examples.specs.NightFirstBytes235.{Computes as FirstBytes235};
ghost use Rattle.night_examples.specs.NightGroupCounterStartsAgain.{Computes as GroupCounterStartsAgain};
ghost use Rattle.night_examples.specs.NightGroupsOfTwoVersions.{Computes as GroupsOfTwoVersions};
ghost use Rattle.night_examples.specs.NightHeaderBeginsASegment.{Computes as HeaderBeginsASegment};
ghost use Rattle.night_examples.specs.NightHeaderWithinAnElement.{Computes as HeaderWithinAnElement};
ghost use Rattle.night_examples.specs.NightHeldForADelimiter.{Computes as HeldForADelimiter};
ghost use Rattle.night_examples.specs.NightHeldWithoutARoute.{Computes as HeldWithoutARoute};
ghost use Rattle.night_examples.specs.NightHierarchyWrong.{Computes as HierarchyWrong};
ghost use Rattle.night_examples.specs.NightHlParentLevelEmpty.{Computes as HlParentLevelEmpty};
ghost use Rattle.night_examples.specs.NightHour24.{Computes as Hour24};
ghost use Rattle.night_examples.specs.NightLineEndsBehindEachTerminator.{Computes as LineEndsBehindEachTerminator};
ghost use Rattle.night_examples.specs.NightLineFeedTerminates.{Computes as LineFeedTerminates};
ghost use Rattle.night_examples.specs.NightLongElementTolerated.{Computes as LongElementTolerated};
ghost use Rattle.night_examples.specs.NightLoopMissing.{Computes as LoopMissing};
ghost use Rattle.night_examples.specs.NightLoopTooOftenAndAStray.{Computes as LoopTooOftenAndAStray};
ghost use Rattle.night_examples.specs.NightNoBytes.{Computes as NoBytes};
ghost use Rattle.night_examples.specs.NightNumbersBeginAgain.{Computes as NumbersBeginAgain};
ghost use Rattle.night_examples.specs.NightOneOrder.{Computes as OneOrder};
ghost use Rattle.night_examples.specs.NightOneRepetitionTooMany.{Computes as OneRepetitionTooMany};
ghost use Rattle.night_examples.specs.NightPackWithoutItsMarks.{Computes as PackWithoutItsMarks};
ghost use Rattle.night_examples.specs.NightRandomGroupWithoutSets.{Computes as RandomGroupWithoutSets};
ghost use Rattle.night_examples.specs.NightRandomIea01Wrong.{Computes as RandomIea01Wrong};
ghost use Rattle.night_examples.specs.NightRandomInterchangeTruncated.{Computes as RandomInterchangeTruncated};
ghost use Rattle.night_examples.specs.NightRandomIsa13WithoutDigits.{Computes as RandomIsa13WithoutDigits};
ghost use Rattle.night_examples.specs.NightRandomSegmentNotUsed.{Computes as RandomSegmentNotUsed};
ghost use Rattle.night_examples.specs.NightRandomSegmentTooSeldom.{Computes as RandomSegmentTooSeldom};
ghost use Rattle.night_examples.specs.NightRandomSenderUnknown.{Computes as RandomSenderUnknown};
ghost use Rattle.night_examples.specs.NightRandomSetDelivered.{Computes as RandomSetDelivered};
ghost use Rattle.night_examples.specs.NightRandomSetHeld.{Computes as RandomSetHeld};
ghost use Rattle.night_examples.specs.NightRandomSetNumbersDiffer.{Computes as RandomSetNumbersDiffer};
ghost use Rattle.night_examples.specs.NightRandomUnusedElement.{Computes as RandomUnusedElement};
ghost use Rattle.night_examples.specs.NightRandomWrongCharacter.{Computes as RandomWrongCharacter};
ghost use Rattle.night_examples.specs.NightReceivedAcknowledgments.{Computes as ReceivedAcknowledgments};
ghost use Rattle.night_examples.specs.NightSetNumberTwice.{Computes as SetNumberTwice};
ghost use Rattle.night_examples.specs.NightSetWithoutAGuide.{Computes as SetWithoutAGuide};
ghost use Rattle.night_examples.specs.NightSt03ComponentSeparatorAlone.{Computes as St03ComponentSeparatorAlone};
ghost use Rattle.night_examples.specs.NightSt03Convention.{Computes as St03Convention};
ghost use Rattle.night_examples.specs.NightSt03ConventionAndSeparator.{Computes as St03ConventionAndSeparator};
ghost use Rattle.night_examples.specs.NightSt03Other.{Computes as St03Other};
ghost use Rattle.night_examples.specs.NightSt03RepetitionSeparatorAlone.{Computes as St03RepetitionSeparatorAlone};
ghost use Rattle.night_examples.specs.NightTwoPartners.{Computes as TwoPartners};
ghost use Rattle.night_examples.specs.NightTwoReceivers.{Computes as TwoReceivers};
ghost use Rattle.night_examples.specs.NightTwoReceiversAndOneHeld.{Computes as TwoReceiversAndOneHeld};
ghost use Rattle.night_examples.specs.NightVersionWithoutAGuide.{Computes as VersionWithoutAGuide};
ghost use Rattle.night_examples.specs.FilesOneOrder.{Computes as FilesOfOneOrder};

/// The night `acknowledgment_asked_for`, computed by the definition.
pub fn acknowledgment_asked_for()
    ensures { AcknowledgmentAskedFor }
{}

/// The night `acknowledgments_asked_for_without_sets`, computed by the definition.
pub fn acknowledgments_asked_for_without_sets()
    ensures { AcknowledgmentsAskedForWithoutSets }
{}

/// The night `bytes_outside`, computed by the definition.
pub fn bytes_outside()
    ensures { BytesOutside }
{}

/// The night `control_number_and_count_wrong`, computed by the definition.
pub fn control_number_and_count_wrong()
    ensures { ControlNumberAndCountWrong }
{}

/// The night `cut_off_resent_and_sent_again`, computed by the definition.
pub fn cut_off_resent_and_sent_again()
    ensures { CutOffResentAndSentAgain }
{}

/// The night `date_of_no_digits_not_answered`, computed by the definition.
pub fn date_of_no_digits_not_answered()
    ensures { DateOfNoDigitsNotAnswered }
{}

/// The night `each_interchange_fault`, computed by the definition.
pub fn each_interchange_fault()
    ensures { EachInterchangeFault }
{}

/// The night `elements_wrong`, computed by the definition.
pub fn elements_wrong()
    ensures { ElementsWrong }
{}

/// The night `first_bytes_000`, computed by the definition.
pub fn first_bytes_000()
    ensures { FirstBytes000 }
{}

/// The night `first_bytes_001`, computed by the definition.
pub fn first_bytes_001()
    ensures { FirstBytes001 }
{}

/// The night `first_bytes_053`, computed by the definition.
pub fn first_bytes_053()
    ensures { FirstBytes053 }
{}

/// The night `first_bytes_105`, computed by the definition.
pub fn first_bytes_105()
    ensures { FirstBytes105 }
{}

/// The night `first_bytes_106`, computed by the definition.
pub fn first_bytes_106()
    ensures { FirstBytes106 }
{}

/// The night `first_bytes_107`, computed by the definition.
pub fn first_bytes_107()
    ensures { FirstBytes107 }
{}

/// The night `first_bytes_150`, computed by the definition.
pub fn first_bytes_150()
    ensures { FirstBytes150 }
{}

/// The night `first_bytes_200`, computed by the definition.
pub fn first_bytes_200()
    ensures { FirstBytes200 }
{}

/// The night `first_bytes_219`, computed by the definition.
pub fn first_bytes_219()
    ensures { FirstBytes219 }
{}

/// The night `first_bytes_220`, computed by the definition.
pub fn first_bytes_220()
    ensures { FirstBytes220 }
{}

/// The night `first_bytes_221`, computed by the definition.
pub fn first_bytes_221()
    ensures { FirstBytes221 }
{}

/// The night `first_bytes_235`, computed by the definition.
pub fn first_bytes_235()
    ensures { FirstBytes235 }
{}

/// The night `group_counter_starts_again`, computed by the definition.
pub fn group_counter_starts_again()
    ensures { GroupCounterStartsAgain }
{}

/// The night `groups_of_two_versions`, computed by the definition.
pub fn groups_of_two_versions()
    ensures { GroupsOfTwoVersions }
{}

/// The night `header_begins_a_segment`, computed by the definition.
pub fn header_begins_a_segment()
    ensures { HeaderBeginsASegment }
{}

/// The night `header_within_an_element`, computed by the definition.
pub fn header_within_an_element()
    ensures { HeaderWithinAnElement }
{}

/// The night `held_for_a_delimiter`, computed by the definition.
pub fn held_for_a_delimiter()
    ensures { HeldForADelimiter }
{}

/// The night `held_without_a_route`, computed by the definition.
pub fn held_without_a_route()
    ensures { HeldWithoutARoute }
{}

/// The night `hierarchy_wrong`, computed by the definition.
pub fn hierarchy_wrong()
    ensures { HierarchyWrong }
{}

/// The night `hl_parent_level_empty`, computed by the definition.
pub fn hl_parent_level_empty()
    ensures { HlParentLevelEmpty }
{}

/// The night `hour_24`, computed by the definition.
pub fn hour_24()
    ensures { Hour24 }
{}

/// The night `line_ends_behind_each_terminator`, computed by the definition.
pub fn line_ends_behind_each_terminator()
    ensures { LineEndsBehindEachTerminator }
{}

/// The night `line_feed_terminates`, computed by the definition.
pub fn line_feed_terminates()
    ensures { LineFeedTerminates }
{}

/// The night `long_element_tolerated`, computed by the definition.
pub fn long_element_tolerated()
    ensures { LongElementTolerated }
{}

/// The night `loop_missing`, computed by the definition.
pub fn loop_missing()
    ensures { LoopMissing }
{}

/// The night `loop_too_often_and_a_stray`, computed by the definition.
pub fn loop_too_often_and_a_stray()
    ensures { LoopTooOftenAndAStray }
{}

/// The night `no_bytes`, computed by the definition.
pub fn no_bytes()
    ensures { NoBytes }
{}

/// The night `numbers_begin_again`, computed by the definition.
pub fn numbers_begin_again()
    ensures { NumbersBeginAgain }
{}

/// The night `one_order`, computed by the definition.
pub fn one_order()
    ensures { OneOrder }
{}

/// The night `one_repetition_too_many`, computed by the definition.
pub fn one_repetition_too_many()
    ensures { OneRepetitionTooMany }
{}

/// The night `pack_without_its_marks`, computed by the definition.
pub fn pack_without_its_marks()
    ensures { PackWithoutItsMarks }
{}

/// The night `random_group_without_sets`, computed by the definition.
pub fn random_group_without_sets()
    ensures { RandomGroupWithoutSets }
{}

/// The night `random_iea01_wrong`, computed by the definition.
pub fn random_iea01_wrong()
    ensures { RandomIea01Wrong }
{}

/// The night `random_interchange_truncated`, computed by the definition.
pub fn random_interchange_truncated()
    ensures { RandomInterchangeTruncated }
{}

/// The night `random_isa13_without_digits`, computed by the definition.
pub fn random_isa13_without_digits()
    ensures { RandomIsa13WithoutDigits }
{}

/// The night `random_segment_not_used`, computed by the definition.
pub fn random_segment_not_used()
    ensures { RandomSegmentNotUsed }
{}

/// The night `random_segment_too_seldom`, computed by the definition.
pub fn random_segment_too_seldom()
    ensures { RandomSegmentTooSeldom }
{}

/// The night `random_sender_unknown`, computed by the definition.
pub fn random_sender_unknown()
    ensures { RandomSenderUnknown }
{}

/// The night `random_set_delivered`, computed by the definition.
pub fn random_set_delivered()
    ensures { RandomSetDelivered }
{}

/// The night `random_set_held`, computed by the definition.
pub fn random_set_held()
    ensures { RandomSetHeld }
{}

/// The night `random_set_numbers_differ`, computed by the definition.
pub fn random_set_numbers_differ()
    ensures { RandomSetNumbersDiffer }
{}

/// The night `random_unused_element`, computed by the definition.
pub fn random_unused_element()
    ensures { RandomUnusedElement }
{}

/// The night `random_wrong_character`, computed by the definition.
pub fn random_wrong_character()
    ensures { RandomWrongCharacter }
{}

/// The night `received_acknowledgments`, computed by the definition.
pub fn received_acknowledgments()
    ensures { ReceivedAcknowledgments }
{}

/// The night `set_number_twice`, computed by the definition.
pub fn set_number_twice()
    ensures { SetNumberTwice }
{}

/// The night `set_without_a_guide`, computed by the definition.
pub fn set_without_a_guide()
    ensures { SetWithoutAGuide }
{}

/// The night `st03_component_separator_alone`, computed by the definition.
pub fn st03_component_separator_alone()
    ensures { St03ComponentSeparatorAlone }
{}

/// The night `st03_convention`, computed by the definition.
pub fn st03_convention()
    ensures { St03Convention }
{}

/// The night `st03_convention_and_separator`, computed by the definition.
pub fn st03_convention_and_separator()
    ensures { St03ConventionAndSeparator }
{}

/// The night `st03_other`, computed by the definition.
pub fn st03_other()
    ensures { St03Other }
{}

/// The night `st03_repetition_separator_alone`, computed by the definition.
pub fn st03_repetition_separator_alone()
    ensures { St03RepetitionSeparatorAlone }
{}

/// The night `two_partners`, computed by the definition.
pub fn two_partners()
    ensures { TwoPartners }
{}

/// The night `two_receivers`, computed by the definition.
pub fn two_receivers()
    ensures { TwoReceivers }
{}

/// The night `two_receivers_and_one_held`, computed by the definition.
pub fn two_receivers_and_one_held()
    ensures { TwoReceiversAndOneHeld }
{}

/// The night `version_without_a_guide`, computed by the definition.
pub fn version_without_a_guide()
    ensures { VersionWithoutAGuide }
{}

/// The guides and the setup of the night `one_order`, computed from the tables of its files.
pub fn files_of_one_order()
    ensures { FilesOfOneOrder }
{}
