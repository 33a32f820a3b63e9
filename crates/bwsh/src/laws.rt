//! Laws about the definitions in `specs/`. Each is the contract of a function with an empty body.
ghost use Rattle.std.specs.Prelude.{◌≡◌, ◌⊎◌, ◌<◌, ◌≤◌, ◌+◌, ◌-◌, ℕ, Bool, false, true, List, [], ◌∷◌, ◌++◌, length, map, take, Option, Some, None, Result, Ok, Err};
ghost use Rattle.std.specs.List.{All, flat_map};
ghost use Rattle.std.specs.declared.alloc.Global.{Global};
ghost use Rattle.crew.specs.Crew.{is_crew};
ghost use Rattle.crew.specs.declared.limits.Crew.{Crew};
ghost use Rattle.keys.specs.Bytes.{Bytes, Pairs};
ghost use Rattle.keys.specs.Limits.{first_bad_field};
ghost use Rattle.keys.specs.declared.command.Command.{Command};
ghost use Rattle.keys.specs.Step.{replies_to, map_after_all};
ghost use Rattle.keys.specs.declared.fault.Fault.{Fault};
ghost use Rattle.keys.specs.declared.fault.Fault.TheVariants.{BadCrew, BatchTooLong, NoMemory};
ghost use Rattle.keys.specs.declared.settings.Settings.{Settings};
ghost use Rattle.mapping.specs.Levels.{contents};
ghost use Rattle.mapping.specs.Tree.{Store, with_tree};
ghost use Rattle.scan.specs.Back.{rows_back};
ghost use Rattle.scan.specs.Prefix.{with_prefix};
ghost use Rattle.verify.specs.Report.{report};
ghost use Rattle.keys.specs.Lists.{flat};
ghost use Rattle.engine.specs.Cleaning.{AreRows, CleanRow, count_of};
ghost use Rattle.engine.specs.Compacted.{IsCompacted};
ghost use Rattle.engine.specs.Room.{is_bloated};
ghost use Rattle.engine.specs.Tidied.{IsTidied, counted_pages};
ghost use Rattle.engine.specs.Tokens.{most_rows};
ghost use Rattle.bwsh.specs.declared.line.Line.{Line};
ghost use Rattle.bwsh.specs.declared.line.Line.TheVariants.{Bad, Go};
ghost use Rattle.bwsh.specs.declared.line.Line.TheVariants as lines;
ghost use Rattle.bwsh.specs.declared.line.Why.{Why};
ghost use Rattle.bwsh.specs.declared.line.Why.TheVariants.{TooManyRows};
ghost use Rattle.bwsh.specs.declared.order.Bounds.{Bounds};
ghost use Rattle.bwsh.specs.declared.order.Order.{Order};
ghost use Rattle.bwsh.specs.declared.order.Order.TheVariants.{Batch, BadLine, Lost, Flush, Clean, Upgrade, Verify, Numbers, Stat, Copy, Tidy, Back, Prefix, Help};
ghost use Rattle.bwsh.specs.declared.session.SessionError.{SessionError};
ghost use Rattle.bwsh.specs.BatchFile.{IsBatch, IsForBatches, IsInBatch, IsNoClean, IsReadAs, IsWithin, asked, batch_lines, commands_of, commands_of_lines, first_bad, are_within_bounds, asks_too_much, orders_of};
ghost use Rattle.bwsh.specs.BatchFile.Pending.{begun, skipped};
ghost use Rattle.bwsh.specs.Laws.{AreAnsweredAlike, PrintsAfter, PrintsOnly};
ghost use Rattle.bwsh.specs.Options.{Request};
ghost use Rattle.bwsh.specs.Session.{Answers, AreCleansOf, AreLeft, AreRight, AreSeenAlike, AreUntidied, Batches, IsEndAfter, IsStart, Reads, Seen, Start, Stored, Tidying, accepted, after_order, answer_lines, answered, bad_line, by_batches, cleaned, compacting, fault_line, first_refusal, front_lines, front_of_refused, later, left_by_step, numbers_of, orders_end, printed, refusal_of, step_in, tidied, untidied};
ghost use Rattle.bwsh.specs.Shown.{help_lines, shown_reply, shown_rows, shown_flushed, shown_cleaned, shown_upgraded, shown_report, shown_numbers, shown_settings, shown_tidied, shown_copied};
ghost use Rattle.bwsh.specs.Token.{token_bytes, shown_token};
ghost use Rattle.bwsh.specs.Words.{words_of};

/// A byte string is printed as one word of printable ASCII, which parses as the same byte string.
pub fn what_is_printed_is_read_back()
    ensures bytes { (bs : Bytes) → All (λ b. b < 256) bs → token_bytes (shown_token bs) ≡ Some bs }
    ensures printable { (bs : Bytes) → All (λ b. b < 256) bs →
        All (λ c. (0x21 ≤ c) × (c ≤ 0x7E)) (shown_token bs) }
    ensures one_word { (bs : Bytes) → All (λ b. b < 256) bs →
        words_of (shown_token bs) ≡ shown_token bs ∷ [] }
{}

/// The orders of a batch file contain each command of its lines once, in order.
pub fn each_command_is_ordered_once()
    ensures { (parsed : List Line) →
        flat_map commands_of (orders_of [] parsed) ≡ commands_of_lines parsed }
{}

/// If parsed lines are the commands of some batches, with a `go` after each batch, the orders are
/// these batches.
pub fn batches_are_read_back()
    ensures { (batches : List (List (Command Global))) →
        orders_of [] (flat_map batch_lines batches) ≡ map (λ commands. Batch commands) batches }
{}

/// If no order is refused, the first one's answer is printed in front of the output of the later
/// ones. Only a batch changes the map. The orders from `bad_line` on are those of streams alone.
pub fn each_order_prints_its_answer()
    ensures none { (settings : Settings) → (st : Store) → (shown : Reads) → (m : Pairs Bytes) →
        printed settings st shown m [] ≡ [] }
    ensures batch { (settings : Settings) → (st : Store) → (shown : Reads) → (m : Pairs Bytes) →
        (commands : List (Command Global)) → (rest : List Order) →
        printed settings st shown m (Batch commands ∷ rest)
        ≡ flat_map shown_reply (replies_to m commands)
        ++ printed settings (after_order settings st (shown 0) (Batch commands)).0 (later shown)
        (map_after_all m commands) rest }
    ensures flush { PrintsAfter Flush (λ st seen now.
        flat (front_lines st seen Flush) ++ shown_flushed now.sequence) }
    ensures clean { PrintsAfter Clean (λ st seen now. shown_cleaned now.head) }
    ensures upgrade { PrintsAfter Upgrade (λ st seen now. shown_upgraded now.sequence) }
    ensures verify { PrintsOnly Verify (λ settings st m. shown_report (report st.tree)) }
    ensures numbers { PrintsOnly Numbers (λ settings st m.
        shown_numbers (numbers_of settings st)) }
    ensures bad_line { (line : ℕ) → (why : Why) →
        PrintsOnly (BadLine line why) (λ settings st m. bad_line line why) }
    ensures stat { PrintsOnly Stat (λ settings st m.
        shown_numbers (numbers_of settings st) ++ shown_settings settings) }
    ensures copy { (path : Bytes) → (segments : Option ℕ) → PrintsOnly (Copy path segments)
        (λ settings st m. shown_copied (report st.tree).pairs) }
    ensures tidy { (most : ℕ) → PrintsAfter (Tidy most)
        (λ st seen now. shown_tidied (counted_pages st.tree - counted_pages now.tree)) }
    ensures back { (lo : Bytes) → (hi : Option Bytes) → (limit : ℕ) →
        PrintsOnly (Back lo hi limit) (λ settings st m. shown_rows (rows_back lo hi limit m)) }
    ensures prefix { (bytes : Bytes) → (limit : ℕ) → PrintsOnly (Prefix bytes limit)
        (λ settings st m. shown_rows (take limit (with_prefix bytes m))) }
    ensures help { PrintsOnly Help (λ settings st m. help_lines) }
{}

/// If all orders are batches and none is refused, their output is the replies of an ordered map to
/// all commands. The settings, the disk and how the commands are divided into batches make no other
/// difference. A batch file without `flush`, `clean`, `upgrade` and `verify` has only batches.
pub fn the_commands_are_answered_in_order()
    ensures orders { (settings : Settings) → (st : Store) → (shown : Reads) → (m : Pairs Bytes) →
        (orders : List Order) → All IsBatch orders →
        printed settings st shown m orders
        ≡ flat_map shown_reply (replies_to m (flat_map commands_of orders)) }
    ensures lines { (settings : Settings) → (st : Store) → (shown : Reads) → (parsed : List Line) →
        All IsForBatches parsed →
        printed settings st shown [] (orders_of [] parsed)
        ≡ flat_map shown_reply (replies_to [] (commands_of_lines parsed)) }
{}

/// If no order is a clean, the answers, the accepted orders and how the session ends do not depend
/// on the disk's bytes. In the two runs compared, the store is tidied by the same batches and cleaned
/// by the same cleans in front of flushes, and the same orders fail for the same reasons, such as an
/// allocation or the file of a copy.
pub fn the_bytes_of_the_disk_do_not_matter()
    ensures { (settings : Settings) → (st : Store) → (shown other : Reads) →
        AreSeenAlike shown other → (orders : List Order) → All IsNoClean orders →
        AreAnsweredAlike settings st shown other orders }
{}

/// If each read of the disk returns what was last written, the store, the initial contents of the
/// disk, the batches of tidying, the cleans in front of flushes, and where orders fail that the store
/// itself does not refuse, determine the answers, the accepted orders and how the session ends. Such
/// reads exist for each store.
pub fn what_was_left_decides_the_answers()
    ensures alike { (settings : Settings) → (st : Store) → (file : Bytes) →
        (shown other : Reads) → AreSeenAlike shown other → (orders : List Order) →
        AreLeft settings st file shown orders → AreLeft settings st file other orders →
        AreAnsweredAlike settings st shown other orders }
    ensures some { (settings : Settings) → (st : Store) → (file : Bytes) → (orders : List Order) →
        (shown : Reads) × AreUntidied shown × AreLeft settings st file shown orders }
{}

/// The cleans in front of a flush change no pairs. Each leaves the next segment as the first one, and
/// there are at most as many as segments. Without `--clean-when-full` there are none, and no order but
/// a flush has any.
pub fn cleans_in_front_of_a_flush_change_no_pairs()
    ensures holds { (settings : Settings) → (seen : Seen) → (at : Stored) →
        contents (cleaned settings seen at).0.tree ≡ contents at.0.tree }
    ensures heads { (honest may_be_cut : Bool) → (settings : Settings) → (st : Store) →
        (left : Bytes) → (rows : List CleanRow) → (now : Store) → (last : Bytes) →
        AreRows honest may_be_cut settings st left rows now last →
        (now.head ≡ st.head + count_of rows) × (count_of rows ≤ settings.segments) }
    ensures none { (honest cleans : Bool) → (settings : Settings) → (st : Store) →
        (order : Order) → (order ≡ Flush → cleans ≡ false) → (seen : Seen) →
        AreCleansOf honest cleans settings st order seen →
        (seen.rows ≡ []) × (front_lines st seen order ≡ []) }
{}

/// If each read of the disk returns what was last written, the store and the bytes of the disk decide
/// the cleans in front of a flush that is done, or that is refused for a reason of its own.
pub fn what_was_left_decides_the_cleans()
    ensures { (settings : Settings) → (st now after : Store) → (seen other : Seen) →
        other.bytes ≡ seen.bytes → seen.fails ≡ None → other.fails ≡ None →
        AreRight true settings st now seen → AreRight true settings st after other →
        (other.rows ≡ seen.rows) × (after ≡ now) × (other.last ≡ seen.last) }
{}

/// Tidying changes no reply, no pair, no byte of the disk and nothing in the log. `Store::tidy`
/// leaves the result of `tidied` for some batches, and `Store::compact` the result of `tidied` for
/// compaction, if the store is bloated. A clean may come before or after it.
pub fn tidying_changes_no_replies()
    ensures replies { (settings : Settings) → (st : Store) → (shown : Reads) → (m : Pairs Bytes) →
        (front : List Order) → (commands : List (Command Global)) → (rest : List Order) →
        (last : List Bytes) × (answer_lines settings st shown m (front ++ Batch commands ∷ rest)
        ≡ answer_lines settings st shown m front
        ++ (map shown_reply (replies_to (map_after_all m (flat_map commands_of front)) commands)
        ++ last)) }
    ensures holds { (settings : Settings) → (tidying : Tidying) → (at : Stored) →
        contents (tidied settings tidying at).0.tree ≡ contents at.0.tree }
    ensures log { (settings : Settings) → (tidying : Tidying) → (at : Stored) →
        ((tidied settings tidying at).0 ≡ with_tree at.0 (tidied settings tidying at).0.tree)
        × ((tidied settings tidying at).1 ≡ at.1) }
    ensures tidies { (settings : Settings) → (st now : Store) → IsTidied settings st now →
        (batches : Batches) × ((file : Bytes) →
        tidied settings (by_batches batches) (st, file) ≡ (now, file)) }
    ensures compacts { (settings : Settings) → (st now : Store) →
        is_bloated settings st.tree ≡ true → IsCompacted settings st now → (file : Bytes) →
        tidied settings compacting (st, file) ≡ (now, file) }
    ensures cleans { (settings : Settings) → (tidying : Tidying) → (at : Stored) →
        tidied settings tidying (left_by_step settings at (step_in Clean))
        ≡ left_by_step settings (tidied settings tidying at) (step_in Clean) }
    ensures untidied { (settings : Settings) → (st : Store) → (file : Bytes) → (order : Order) →
        after_order settings st (untidied file) order
        ≡ left_by_step settings (st, file) (step_in order) }
{}

/// If no line is bad or lost, and in a stream no batch is too long or asks for too many rows, the
/// orders of a session are those of its text. A stream in which no order is refused prints all
/// answers. A session without `--stream` prints the answers of the orders before the first refusal,
/// and the lines of the cleans in front of the refused order. A bad line after n good lines has the
/// number n + 1.
pub fn a_text_is_a_stream_that_was_read_to_its_end()
    ensures orders { (bounds : Bounds) → (parsed : List Line) → IsWithin parsed →
        are_within_bounds bounds (orders_of [] parsed) ≡ true →
        asked bounds 1 (begun []) parsed ≡ orders_of [] parsed }
    ensures stream { (settings : Settings) → (st : Store) → (shown : Reads) → (m : Pairs Bytes) →
        (orders : List Order) → first_refusal settings st shown orders ≡ None →
        answered true settings st shown m orders ≡ answer_lines settings st shown m orders }
    ensures text { (settings : Settings) → (st : Store) → (shown : Reads) → (m : Pairs Bytes) →
        (orders : List Order) →
        answered false settings st shown m orders
        ≡ answer_lines settings st shown m (accepted settings st shown orders)
        ++ front_of_refused settings st shown orders }
    ensures found { (front : List Line) → first_bad 1 front ≡ None → (why : Why) →
        (rest : List Line) → first_bad 1 (front ++ Bad why ∷ rest) ≡ Some (length front + 1, why) }
{}

/// In a stream, a refused order is answered by one line, after the lines of the cleans in front of
/// it, and changes no pair. The later orders are answered from the store as it is then, and the
/// orders end without an error. A bad line is answered at once, and so are a line for which an
/// allocation failed, a scan with which the batch asks for too many rows, and the 65,536th command of
/// a batch. The rest of the batch is skipped up to the line that ends it, and if this line is an
/// order, the order is run. A line that ends a batch ends it also if an allocation fails for it: it
/// is then an order that is refused.
pub fn a_stream_goes_on_after_a_refusal()
    ensures holds { (settings : Settings) → (st : Store) → (seen : Seen) → (order : Order) →
        (fault : Fault) → refusal_of settings st seen order ≡ Some fault →
        contents (after_order settings st seen order).0.tree ≡ contents st.tree }
    ensures answer { (settings : Settings) → (st : Store) → (shown : Reads) → (m : Pairs Bytes) →
        (order : Order) → (rest : List Order) → (fault : Fault) →
        refusal_of settings st (shown 0) order ≡ Some fault →
        answered true settings st shown m (order ∷ rest)
        ≡ front_lines st (shown 0) order ++ fault_line (shown 0).told
        ∷ answered true settings (after_order settings st (shown 0) order).0 (later shown) m rest }
    ensures end { (settings : Settings) → (st : Store) → (shown : Reads) → (orders : List Order) →
        orders_end true settings st shown orders ≡ Ok tt }
    ensures bad { (bounds : Bounds) → (n : ℕ) → (pending : List (Command Global)) → (why : Why) →
        (rest : List Line) → asked bounds n (begun pending) (Bad why ∷ rest)
        ≡ BadLine n why ∷ asked bounds (n + 1) skipped rest }
    ensures lost { (bounds : Bounds) → (n : ℕ) → (pending : List (Command Global)) →
        (rest : List Line) → asked bounds n (begun pending) (lines.Lost ∷ rest)
        ≡ Lost ∷ asked bounds (n + 1) skipped rest }
    ensures rows { (bounds : Bounds) → bounds.is_stream ≡ true → 0 < bounds.max_rows →
        (n : ℕ) → (pending : List (Command Global)) → (command : Command Global) →
        bounds.max_rows < most_rows (pending ++ command ∷ []) → (rest : List Line) →
        asked bounds n (begun pending) (lines.Command command ∷ rest)
        ≡ BadLine n TooManyRows ∷ asked bounds (n + 1) skipped rest }
    ensures long { (bounds : Bounds) → bounds.is_stream ≡ true → (n : ℕ) →
        (pending : List (Command Global)) → length pending ≡ 65535 →
        (command : Command Global) → asks_too_much bounds (pending ++ command ∷ []) ≡ false →
        (rest : List Line) → asked bounds n (begun pending) (lines.Command command ∷ rest)
        ≡ Batch (pending ++ command ∷ []) ∷ asked bounds (n + 1) skipped rest }
    ensures unbounded { (bounds : Bounds) → bounds.max_rows ≡ 0 →
        (commands : List (Command Global)) → asks_too_much bounds commands ≡ false }
    ensures lost_refused { (settings : Settings) → (st : Store) → (seen : Seen) →
        seen.fails ≡ None → refusal_of settings st seen Lost ≡ Some NoMemory }
    ensures long_refused { (settings : Settings) → (st : Store) → (seen : Seen) →
        seen.fails ≡ None → (commands : List (Command Global)) → 65535 < length commands →
        refusal_of settings st seen (Batch commands) ≡ Some BatchTooLong }
    ensures skipped { (bounds : Bounds) → (n : ℕ) → (front : List Line) → IsInBatch front →
        (rest : List Line) → asked bounds n skipped (front ++ Go ∷ rest)
        ≡ asked bounds (n + (length front + 1)) (begun []) rest }
    ensures skipped_order { (bounds : Bounds) → (n : ℕ) → (front : List Line) → IsInBatch front →
        (order : Order) → (rest : List Line) →
        asked bounds n skipped (front ++ lines.Order order ∷ rest)
        ≡ order ∷ asked bounds (n + (length front + 1)) (begun []) rest }
    ensures lost_order { (order : Order) → (got : Line) → IsReadAs true (lines.Order order) got →
        (got ≡ lines.Order order) ⊎ (got ≡ lines.Order Lost) }
    ensures go { (got : Line) → IsReadAs true Go got → got ≡ Go }
{}

/// With valid settings, and if no file fails, a session prints the same with and without
/// `--copy-to`. It ends the same, or with a fault of the copy after all orders are done.
pub fn a_copy_changes_only_the_end()
    ensures { (request : Request) → first_bad_field request.settings ≡ None →
        (known old new : Option Bytes) → (end : Result (Unit {0}) SessionError) →
        Answers request known old new end → (plain : Result (Unit {0}) SessionError)
        × Answers (record request { copy_to = None }) known old new plain × IsEndAfter plain end }
{}

/// A session's output and result are the same for every crew in range. A crew out of range is
/// refused before anything runs.
pub fn the_crew_does_not_matter()
    ensures same { (request : Request) → (crew : Crew) → is_crew crew ≡ is_crew request.crew →
        (known old new : Option Bytes) → (end : Result (Unit {0}) SessionError) →
        Answers request known old new end →
        Answers (record request { crew = crew }) known old new end }
    ensures refused { (request : Request) → is_crew request.crew ≡ false → (start : Start) →
        IsStart request start → start ≡ Err BadCrew }
{}

/// Which answers and which ends of a session are right does not depend on `--progress`, `--explain`
/// and `--wait`.
pub fn reports_change_no_answers()
    ensures { (request : Request) → (progress explain : Bool) → (wait : ℕ) →
        (known old new : Option Bytes) → (end : Result (Unit {0}) SessionError) →
        Answers request known old new end →
        Answers (record request {
          mode = record request.mode
              { progress = progress; explain = explain; wait = wait };
        }) known old new end }
{}
