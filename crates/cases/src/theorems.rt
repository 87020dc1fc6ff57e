// Theorems as contracts: each of these functions does nothing, and its contract is the theorem.
ghost use Rattle.cases.specs.Cases.{Table, PayloadTest, WordsTest, ReasonsTest, HistoryTest, RingTest, ReadTest, MessagesTest, StreamTest, NumbersTest, LayoutTest, IdleTimes};

pub fn session_cases()
    ensures { Table }
{}

pub fn payload_test()
    ensures { PayloadTest }
{}

pub fn words_test()
    ensures { WordsTest }
{}

pub fn reasons_test()
    ensures { ReasonsTest }
{}

pub fn history_test()
    ensures { HistoryTest }
{}

pub fn ring_test()
    ensures { RingTest }
{}

pub fn read_test()
    ensures { ReadTest }
{}

pub fn messages_test()
    ensures { MessagesTest }
{}

pub fn stream_test()
    ensures { StreamTest }
{}

pub fn numbers_test()
    ensures { NumbersTest }
{}

pub fn layout_test()
    ensures { LayoutTest }
{}

pub fn idle_times()
    ensures { IdleTimes }
{}
